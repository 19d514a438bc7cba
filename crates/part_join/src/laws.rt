//! A law of the definitions.

ghost use Rattle.part_join.specs.Laws.{OneJoin};

/// The law that files have one answer, failed reads and want of memory apart: so each comes exactly where its definition holds.
pub fn one_join()
    ensures { OneJoin }
{}
