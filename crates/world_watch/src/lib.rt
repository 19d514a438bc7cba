//! Watchers, which look at each world of a listing and report at its end.
#![tactic(auto)]

mod count;
mod counts;
mod feeding;
mod json;
mod merge;
mod pair_lines;
mod seen;
mod tally;
mod watcher;

pub use count::CountWatcher;
pub use feeding::feed;
pub use json::JsonWatcher;
pub use merge::MergeWatcher;
pub use seen::{SeenWatcher, put_sets};
pub use tally::TallyWatcher;
pub use watcher::WorldWatcher;
