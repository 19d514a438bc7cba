//! Laws of questions that are turned round.
ghost use Rattle.claims_run.specs.Explain.Laws.{ConversesTurnPairs, TurnedIsAsked};

/// The law that the converses of a set are at a pair that is turned round just where the set is at the pair.
pub fn converses_turn_pairs()
    ensures { ConversesTurnPairs }
{}

/// The law that a question that is turned round is the one that was asked.
pub fn turned_is_asked()
    ensures { TurnedIsAsked }
{}
