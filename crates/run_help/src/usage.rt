//! What people are told of words that can't be taken.

use crate::words::key_of;
use command_line::UsageKind;

fn is_help(word: &str) -> bool {
    word == "--help" || word == "-h" || word == "help"
}

/// Whether the only word asks for help. It is no command: the run ends as it does with any other word that is none.
pub fn asks_for_help(words: &[String]) -> bool {
    match words.split_first() {
        Some((word, further)) => further.is_empty() && is_help(word.as_str()),
        None => false,
    }
}

/// Whether a word gives a key, by how it is written.
pub fn is_given(words: &[String], key: &str) -> bool {
    words.iter().any(|word| key_of(word.as_str()) == key)
}

/// What to do about words with a fault of this kind, whichever word has it.
pub fn usage_advice(kind: UsageKind) -> &'static str {
    match kind {
        UsageKind::NoCommand | UsageKind::UnknownCommand => "begin with one of these",
        UsageKind::NotOperand => {
            "write a key, an equals sign and a value, with no space between them"
        }
        UsageKind::UnknownKey => "take one of those above",
        UsageKind::KeyTwice => "give it once",
        UsageKind::BadSwitch => "write on or off",
        UsageKind::BadNumber | UsageKind::ZeroBudget => "give another number",
        UsageKind::BadSet => "give one or more of the letters = > < x !",
        UsageKind::EmptyName => "write the file's name behind the equals sign",
        UsageKind::UnknownKind => {
            "give one or more of count, tally, seen, merge and json, with commas and no spaces between"
        }
        UsageKind::KindTwice => "name it once",
        UsageKind::MissingKey | UsageKind::BudgetWithoutToken => "add it",
        UsageKind::SameName => "give each a name of its own",
    }
}
