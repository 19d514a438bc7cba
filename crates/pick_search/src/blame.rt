//! Which picks a dead problem is to be blamed on: a hint.
ghost use Rattle.constraint_set.specs.Shape.{shape_of};
ghost use Rattle.std.specs.Prelude.{◌≡◌};

use crate::picks::Pick;
use constraint_set::Problem;
use point_encode::{Need, word_of};
use point_query::{Asker, Probe};
use rcc5_core::{Occupancy, Position, forced};
use std::alloc::{AllocError, Global};

// Notes a pair, unless the problem alone says of its region what a reason takes: then no pick is to blame for it.
fn note(
    spoken: &mut Vec<u32>,
    problem: &Problem,
    pair: u32,
    part: u32,
    word: Occupancy,
) -> Result<(), AllocError> {
    if pair < problem.pair_count() && word_of(forced(problem.allowed(pair)), part) != word {
        spoken.push(pair)?;
    }
    Ok(())
}

// Notes the pair of a region's selector.
fn note_selector(
    spoken: &mut Vec<u32>,
    problem: &Problem,
    variable: u32,
) -> Result<(), AllocError> {
    let concepts = problem.concept_count();
    if variable >= concepts {
        let region = variable - concepts;
        note(spoken, problem, region / 3, region % 3, Occupancy::Empty)?;
    }
    Ok(())
}

// The pairs that the reason speaks of why a problem is dead, where the unnarrowed problem does not say as much.
fn spoken_of(
    alloc: Global,
    problem: &Problem,
    node: &Problem,
    asker: &mut Asker,
) -> Result<Vec<u32>, AllocError>
    requires { asker.old.shape ≡ shape_of node.now }
    ensures { asker.new.shape ≡ asker.old.shape }
{
    let mut spoken = Vec::new(alloc);
    match asker.probe(node, &Position::new(alloc))? {
        Probe::Alive => {}
        Probe::EmptyPair(pair) => spoken.push(pair)?,
        Probe::Closed(need, id) => {
            if let Need::Region { pair, part } = need {
                let part = u32::from(part);
                note(&mut spoken, problem, pair, part, Occupancy::Occupied)?;
            }
            if let Some(lits) = asker.clause(id) {
                for place in 0..lits.count() {
                    note_selector(&mut spoken, problem, lits.lit(place).variable())?;
                }
            }
        }
    }
    Ok(spoken)
}

// Whether each of some pairs is among others.
fn are_among(few: &[u32], pairs: &[u32]) -> bool {
    for pair in few {
        if !pairs.contains(pair) {
            return false;
        }
    }
    true
}

/// Which picks may be to blame.
#[derive(Drop)]
pub(crate) struct Blame {
    pub(crate) picks: Vec<Pick>,
    /// Whether the reason speaks of no other pairs than theirs.
    pub(crate) is_theirs: bool,
}

// The picks to blame, if not all.
pub(crate) fn blamed(
    alloc: Global,
    problem: &Problem,
    node: &Problem,
    pairs: &[u32],
    picks: &[Pick],
    asker: &mut Asker,
) -> Result<Blame, AllocError>
    requires { asker.old.shape ≡ shape_of node.now }
    ensures { asker.new.shape ≡ asker.old.shape }
{
    let spoken = spoken_of(alloc, problem, node, asker)?;
    let is_theirs = are_among(&spoken, pairs);
    let mut few = Vec::new(alloc);
    for pick in picks {
        if let Some(pair) = pairs.get(pick.place) {
            if spoken.contains(pair) {
                few.push(*pick)?;
            }
        }
    }
    Ok(Blame {
        picks: few,
        is_theirs,
    })
}
