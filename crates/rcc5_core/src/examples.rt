//! Examples that the check computes: functions with an empty body, whose contracts are the examples.

ghost use Rattle.rcc5_core.specs.Examples.{ElevenWholeSets, RelationsOfSmallSets};

/// Of the 32 sets of relations just eleven are whole.
pub fn eleven_whole_sets()
    ensures { ElevenWholeSets }
{}

/// Relations of small sets, empty ones among them.
pub fn relations_of_small_sets()
    ensures { RelationsOfSmallSets }
{}
