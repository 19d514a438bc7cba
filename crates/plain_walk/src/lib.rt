//! A plain and slow program for problems of a few concepts: points by trial of every list of bits,
//! nodes and possible worlds by going through all prefixes.
//!
//! It is there to be read, and to be compared with. The work doubles with each concept.
#![tactic(auto)]

mod rules;
mod trial;
mod walk;

pub use trial::is_alive;
pub use walk::{cut_after, nodes_between, worlds_between};
