//! The given clauses of a problem, the selectors of a prefix, and its needs.
#![tactic(auto)]

mod asked;
mod encode;
pub mod model;
mod need;
mod numbers;
mod select;
mod variables;

pub use asked::{Selector, is_asked, is_empty, is_need_lit, is_sum_kept, selector_of};
pub use encode::given_clauses;
pub use model::{clauses_are_points, needs_are_literals, one_shape_one_list};
pub use need::{Need, is_forced, need_lits, needs_of};
pub use numbers::{
    Wanted, by_concepts, count_needs, count_pairs, is_in, lies_in, need_at, need_number, need_of,
    word_of,
};
pub use select::{add_empty_regions, allowed_at, forced_at, selectors_of};
pub use variables::{MAX_SUM_START, MAX_VARIABLES, variable_count};
