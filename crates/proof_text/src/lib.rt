//! The lines of a derivation as text, read and printed.
#![tactic(auto)]

mod fault;
mod laws;
mod numbers;
mod printing;
mod reading;
mod spelling;
mod words;

pub use fault::LineTextFault;
pub use laws::{
    law_lines_have_one_text, law_lines_read_back, law_numbers_read_back, law_words_read_back,
};
pub use numbers::{print_number, read_number};
pub use printing::{print_line, put_line};
pub use reading::{number_at, read_derive, read_forget, read_line};
pub use spelling::{print_position, put_letters, switch_word};
pub use words::Words;
