//! The form of a line, by the words behind its slot.
ghost use Rattle.std.specs.Prelude.{◌≡◌, option_map};
ghost use Rattle.text_words.specs.Tokens.{words_in};
ghost use Rattle.desk_run.specs.Script.Forms.{at_end, keep_form, narrow_form, keyword_form, form_of};
ghost use Rattle.desk_run.specs.Script.Views.{form_meant};

use text_words::{is_same, next_word};

/// What a line asks for, with its words.
#[derive(Clone, Copy)]
pub(crate) enum Form<'a> {
    Open,
    Keep(&'a [u8]),
    Narrow {
        left: &'a [u8],
        right: &'a [u8],
        letters: &'a [u8],
    },
    Next,
    Close,
}

// A form, if no word is left.
fn at_end<'a>(form: Form<'a>, line: &[u8]) -> Option<Form<'a>>
    ensures { option_map form_meant result ≡ at_end (form_meant form.entry) (words_in line.now) }
{
    match next_word(line) {
        Some(_) => None,
        None => Some(form),
    }
}

fn keep_form(line: &[u8]) -> Option<Form<'_>>
    ensures { option_map form_meant result ≡ keep_form (words_in line.now) }
{
    let (bits, rest) = next_word(line)?;
    at_end(Form::Keep(bits), rest)
}

fn narrow_form(line: &[u8]) -> Option<Form<'_>>
    ensures { option_map form_meant result ≡ narrow_form (words_in line.now) }
{
    let (left, rest) = next_word(line)?;
    let (right, rest) = next_word(rest)?;
    let (letters, rest) = next_word(rest)?;
    let form = Form::Narrow {
        left,
        right,
        letters,
    };
    at_end(form, rest)
}

// The form of a line that begins with this word.
fn keyword_form<'a>(word: &[u8], line: &'a [u8]) -> Option<Form<'a>>
    ensures { option_map form_meant result ≡ keyword_form word.now (words_in line.now) }
{
    if is_same(word, b"open") {
        at_end(Form::Open, line)
    } else if is_same(word, b"keep") {
        keep_form(line)
    } else if is_same(word, b"narrow") {
        narrow_form(line)
    } else if is_same(word, b"next") {
        at_end(Form::Next, line)
    } else if is_same(word, b"close") {
        at_end(Form::Close, line)
    } else {
        None
    }
}

/// The form of a line, from the word behind its slot on.
pub(crate) fn form_of(line: &[u8]) -> Option<Form<'_>>
    ensures { option_map form_meant result ≡ form_of (words_in line.now) }
{
    let (word, rest) = next_word(line)?;
    keyword_form(word, rest)
}
