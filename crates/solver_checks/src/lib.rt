//! Tests of the solver and of what it stands on, also beside the checker of its lines.
#![tactic(auto)]

#[cfg(test)]
mod by_hints;
#[cfg(test)]
mod forgetting;
#[cfg(test)]
mod solver_and_book;
#[cfg(test)]
mod trails;
