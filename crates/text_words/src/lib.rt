//! The lines, tokens and words of a problem's text, and sets of relations as letters.
#![tactic(auto)]

mod letters;
mod lines;
mod tokens;
mod words;

pub use letters::set_of_letters;
pub use lines::{bare, cut_at_first, first_line};
pub use tokens::{Token, next_token, next_word};
pub use words::{
    Reference, is_name, is_same, is_taxonomy_name, reference_of, references_of, set_of_words,
};
