//! The form of a line, by its tokens.
ghost use Rattle.std.specs.Prelude.{◌≡◌, [], ◌∷◌, ℕ, List, map, IfOk, option_map};
ghost use Rattle.text_words.specs.Tokens.{Word, tokens_after, tokens_of};
ghost use Rattle.cleantax_text.specs.Forms.{words_to, taxonomy_form, row_form, sum_form, right_form, braces_form, entry_form, bracket_form, form_of};
ghost use Rattle.text_words.specs.Views.{words_meant};
ghost use Rattle.cleantax_text.specs.Views.{form_meant, IsWell, run_meant, at_bracket};

use std::alloc::{AllocError, Global};
use text_words::{Token, bare, is_same, next_token};

/// What a line is, with its words.
#[derive(Drop)]
pub(crate) enum Form<'a> {
    Blank,
    TaxonomyLine(&'a [u8]),
    ArticulationLine,
    RowLine(Vec<&'a [u8]>),
    PairEntry {
        left: &'a [u8],
        relation: Vec<&'a [u8]>,
        right: &'a [u8],
    },
    SumEntry {
        whole: &'a [u8],
        parts: Vec<&'a [u8]>,
    },
    NoForm,
}

/// Words, the bracket after them, and what follows it.
#[derive(Drop)]
struct Run<'a> {
    words: Vec<&'a [u8]>,
    bracket: u8,
    after: &'a [u8],
}

// The words before the first bracket of a line, if it has one.
#[tactic(auto, using(crate::proofs::FormLemmas::run_rules))]
fn run_of(alloc: Global, line: &[u8]) -> Result<Option<Run<'_>>, AllocError>
    ensures { IfOk result (λ run. option_map run_meant run ≡ at_bracket (tokens_after [] line.now)) }
{
    let mut words = Vec::new(alloc);
    let mut rest = line;
    while let Some((token, after)) = next_token(rest) {
        match token {
            Token::Word(word) => words.push(word)?,
            Token::Bracket(bracket) => {
                return Ok(Some(Run {
                    words,
                    bracket,
                    after,
                }));
            }
        }
        rest = after;
    }
    Ok(None)
}

// The words of a line that ends with this bracket and has no other.
#[tactic(auto, using(crate::proofs::FormLemmas::words_rules))]
fn words_to(alloc: Global, line: &[u8], close: u8) -> Result<Option<Vec<&[u8]>>, AllocError>
    ensures { IfOk result (λ words. option_map (λ w. words_meant w.items) words ≡ words_to close (tokens_after [] line.now)) }
{
    let Some(run) = run_of(alloc, line)? else {
        return Ok(None);
    };
    if run.bracket == close && next_token(run.after).is_none() {
        Ok(Some(run.words))
    } else {
        Ok(None)
    }
}

fn taxonomy_form(line: &[u8]) -> Form<'_>
    ensures { form_meant result ≡ taxonomy_form (tokens_after [] line.now) }
{
    match next_token(line) {
        Some((Token::Word(id), _)) => Form::TaxonomyLine(id),
        _ => Form::NoForm,
    }
}

fn row_form(alloc: Global, line: &[u8]) -> Result<Form<'_>, AllocError>
    ensures { IfOk result (λ form. form_meant form ≡ row_form (words_to 41 (tokens_after [] line.now))) }
{
    match words_to(alloc, line, b')')? {
        Some(names) if !names.is_empty() => Ok(Form::RowLine(names)),
        _ => Ok(Form::NoForm),
    }
}

fn sum_form<'a>(whole: &'a [u8], words: Option<Vec<&'a [u8]>>) -> Form<'a>
    ensures { form_meant result ≡ sum_form whole.now (option_map (λ w. words_meant w.items) words.entry) }
{
    match words {
        Some(parts) if parts.len() >= 2 => Form::SumEntry { whole, parts },
        _ => Form::NoForm,
    }
}

fn right_form<'a>(left: &'a [u8], relation: Vec<&'a [u8]>, words: Option<Vec<&'a [u8]>>) -> Form<'a>
    ensures { form_meant result ≡ right_form left.now (words_meant relation.entry.items) (option_map (λ w. words_meant w.items) words.entry) }
{
    let Some(words) = words else {
        return Form::NoForm;
    };
    match words.as_slice() {
        [right] => Form::PairEntry {
            left,
            relation,
            right: *right,
        },
        _ => Form::NoForm,
    }
}

#[tactic(auto, using(crate::proofs::FormLemmas::words_rules))]
fn braces_form<'a>(alloc: Global, left: &'a [u8], line: &'a [u8]) -> Result<Form<'a>, AllocError>
    ensures { IfOk result (λ form. form_meant form ≡ braces_form left.now [] (tokens_after [] line.now)) }
{
    let Some(relation) = run_of(alloc, line)? else {
        return Ok(Form::NoForm);
    };
    if relation.bracket != b'}' {
        return Ok(Form::NoForm);
    }
    let right = words_to(alloc, relation.after, b']')?;
    Ok(right_form(left, relation.words, right))
}

// An entry whose relation is this one word, or a sum.
fn word_form<'a>(
    alloc: Global,
    left: &'a [u8],
    word: &'a [u8],
    line: &'a [u8],
) -> Result<Form<'a>, AllocError>
    ensures { IfOk result (λ form. form_meant form ≡ entry_form left.now (Word word.now ∷ tokens_after [] line.now)) }
{
    let words = words_to(alloc, line, b']')?;
    if is_same(word, b"sums") {
        return Ok(sum_form(left, words));
    }
    let relation = one_word(alloc, word)?;
    Ok(right_form(left, relation, words))
}

fn one_word(alloc: Global, word: &[u8]) -> Result<Vec<&[u8]>, AllocError>
    ensures { IfOk result (λ words. words_meant words.items ≡ word.now ∷ []) }
{
    let mut words = Vec::new(alloc);
    words.push(word)?;
    Ok(words)
}

fn entry_form<'a>(alloc: Global, left: &'a [u8], line: &'a [u8]) -> Result<Form<'a>, AllocError>
    ensures { IfOk result (λ form. form_meant form ≡ entry_form left.now (tokens_after [] line.now)) }
{
    match next_token(line) {
        Some((Token::Word(word), after)) => word_form(alloc, left, word, after),
        Some((Token::Bracket(b'{'), after)) => braces_form(alloc, left, after),
        _ => Ok(Form::NoForm),
    }
}

fn bracket_form(alloc: Global, line: &[u8]) -> Result<Form<'_>, AllocError>
    ensures { IfOk result (λ form. form_meant form ≡ bracket_form (tokens_after [] line.now)) }
{
    match next_token(line) {
        Some((Token::Word(left), after)) => entry_form(alloc, left, after),
        _ => Ok(Form::NoForm),
    }
}

fn keyword_form<'a>(word: &[u8], line: &'a [u8]) -> Form<'a>
    ensures { form_meant result ≡ form_of (Word word.now ∷ tokens_after [] line.now) }
{
    if is_same(word, b"taxonomy") {
        return taxonomy_form(line);
    }
    if is_same(word, b"articulation") || is_same(word, b"articulations") {
        return Form::ArticulationLine;
    }
    Form::NoForm
}

fn bare_form(alloc: Global, line: &[u8]) -> Result<Form<'_>, AllocError>
    ensures { IfOk result (λ form. form_meant form ≡ form_of (tokens_after [] line.now)) }
{
    match next_token(line) {
        None => Ok(Form::Blank),
        Some((Token::Word(word), after)) => Ok(keyword_form(word, after)),
        Some((Token::Bracket(b'('), after)) => row_form(alloc, after),
        Some((Token::Bracket(b'['), after)) => bracket_form(alloc, after),
        _ => Ok(Form::NoForm),
    }
}

/// The form of a line, which still has its carriage return and its comment.
#[tactic(auto, using(crate::proofs::FormLemmas::well_form))]
pub(crate) fn form_of(alloc: Global, line: &[u8]) -> Result<Form<'_>, AllocError>
    ensures form { IfOk result (λ form. form_meant form ≡ form_of (tokens_of line.now)) }
    ensures well { IfOk result (λ form. IsWell (form_meant form)) }
{
    bare_form(alloc, bare(line))
}
