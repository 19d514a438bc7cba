//! A law of listings that are cut and go on.
ghost use Rattle.listing_run.specs.Resuming.{ChainsListOnce};

/// Runs, each of which goes on from the cut of the one before, list together what one run would: each world once, in order.
pub fn chains_list_once()
    ensures { ChainsListOnce }
{}
