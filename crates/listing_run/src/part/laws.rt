//! A law of parts that follow each other.
ghost use Rattle.listing_run.specs.Part.Laws.{PartsJoin};

/// Parts, each up to where the next begins, are joined by their certificates to the listing of all worlds.
pub fn parts_join()
    ensures { PartsJoin }
{}
