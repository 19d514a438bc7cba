//! Which name of a statement no row above has, and what may be meant by it.

use crate::line::{is_plain, line_of};
use crate::near::nearest;
use cleantax_text::read_problem;
use constraint_set::{Problem, Switches};
use std::alloc::{AllocError, Global};
use text_words::{Reference, Token, bare, next_token, reference_of};

// The lines above the one with this number.
fn above(alloc: Global, text: &str, number: u32) -> Result<String, AllocError> {
    let mut above = String::new(alloc);
    for line in text.lines().take(number.saturating_sub(1) as usize) {
        above.push_str(line)?;
        above.push_str("\n")?;
    }
    Ok(above)
}

// A name as text; empty where it may not be shown.
fn shown(name: &[u8]) -> &str {
    match std::str::from_utf8(name) {
        Ok(text) if is_plain(text) => text,
        _ => "",
    }
}

fn taxonomies<'a>(alloc: Global, problem: &'a Problem) -> Result<Vec<&'a str>, AllocError> {
    let mut names = Vec::new(alloc);
    for which in 0..problem.taxonomy_count() {
        names.push(shown(problem.taxonomy_name(which as usize)))?;
    }
    Ok(names)
}

// The names of the concepts of the taxonomy at a place.
fn concepts<'a>(
    alloc: Global,
    problem: &'a Problem,
    which: usize,
) -> Result<Vec<&'a str>, AllocError> {
    let mut names = Vec::new(alloc);
    for concept in 0..problem.concept_count() {
        if problem.owner(concept) as usize == which {
            names.push(shown(problem.name(concept)))?;
        }
    }
    Ok(names)
}

fn place_of(names: &[&str], name: &str) -> Option<usize> {
    names.iter().position(|known| *known == name)
}

// The first taxonomy that has a concept of this name; empty where none has.
fn home_of<'a>(
    alloc: Global,
    problem: &Problem,
    taxonomies: &[&'a str],
    concept: &str,
) -> Result<&'a str, AllocError> {
    for (which, taxonomy) in taxonomies.iter().enumerate() {
        let names = concepts(alloc, problem, which)?;
        if place_of(&names, concept).is_some() {
            return Ok(*taxonomy);
        }
    }
    Ok("")
}

// The sentence on a reference whose taxonomy there isn't.
fn no_taxonomy(
    alloc: Global,
    taxonomies: &[&str],
    home: &str,
    taxonomy: &str,
    concept: &str,
) -> Result<String, AllocError> {
    let mut said = format!(in alloc; "there is no taxonomy {taxonomy}, in {taxonomy}.{concept}")?;
    let near = if home.is_empty() {
        nearest(alloc, taxonomy, taxonomies)?
    } else {
        home
    };
    if !near.is_empty() {
        write!(said, "; is it {near}?")?;
        return Ok(said);
    }
    let mut before = "; there are ";
    for name in taxonomies {
        write!(said, "{before}{name}")?;
        before = ", ";
    }
    Ok(said)
}

// The sentence on a reference whose taxonomy has no such concept.
fn no_concept(
    alloc: Global,
    rows: &str,
    near: &str,
    home: &str,
    taxonomy: &str,
    concept: &str,
) -> Result<String, AllocError> {
    let mut said = format!(in alloc; "{rows} has {taxonomy}.{concept}")?;
    match (near.is_empty(), home.is_empty()) {
        (true, true) => write!(
            said,
            ", and {taxonomy} has no name like it; spell it as it stands there, or put it into a row there"
        )?,
        (false, true) => write!(said, "; is it {taxonomy}.{near}?")?,
        (true, false) => write!(said, "; is it {home}.{concept}?")?,
        (false, false) => write!(said, "; is it {taxonomy}.{near} or {home}.{concept}?")?,
    }
    Ok(said)
}

// What to say of a reference, which rows may have; nothing where there is such a concept, or where its names may not be shown.
fn told_of(
    alloc: Global,
    problem: &Problem,
    rows: &str,
    reference: Reference<'_>,
) -> Result<Option<String>, AllocError> {
    let taxonomy = shown(reference.taxonomy);
    let concept = shown(reference.concept);
    if taxonomy.is_empty() || concept.is_empty() {
        return Ok(None);
    }
    let taxonomies = taxonomies(alloc, problem)?;
    let home = home_of(alloc, problem, &taxonomies, concept)?;
    let Some(which) = place_of(&taxonomies, taxonomy) else {
        return Ok(Some(no_taxonomy(alloc, &taxonomies, home, taxonomy, concept)?));
    };
    let names = concepts(alloc, problem, which)?;
    if place_of(&names, concept).is_some() {
        return Ok(None);
    }
    let near = nearest(alloc, concept, &names)?;
    let said = no_concept(alloc, rows, near, home, taxonomy, concept)?;
    Ok(Some(said))
}

// A problem, to look for its names: which there are doesn't hang on the switches.
fn problem_of(alloc: Global, text: &[u8]) -> Option<Problem> {
    let switches = Switches {
        nonempty: true,
        sibling: true,
        coverage: true,
    };
    read_problem(alloc, text, switches).ok()
}

/// What to say of a word that was to name a concept of a problem, by its text; nothing where it names one.
pub fn unknown_name(alloc: Global, text: &[u8], word: &str) -> Result<Option<String>, AllocError> {
    let Some(problem) = problem_of(alloc, text) else {
        return Ok(None);
    };
    let Some(reference) = reference_of(word.as_bytes()) else {
        let said = String::from_str(
            alloc,
            "this names no concept; write the name of its taxonomy, a full stop and its own",
        )?;
        return Ok(Some(said));
    };
    told_of(alloc, &problem, "no row", reference)
}

/// What to say of each name of a statement that no row above has, by the text and the number of the statement's line.
pub(crate) fn unknown_names(
    alloc: Global,
    text: &str,
    number: u32,
) -> Result<Vec<String>, AllocError> {
    let mut told = Vec::new(alloc);
    let above = above(alloc, text, number)?;
    let Some(problem) = problem_of(alloc, above.as_bytes()) else {
        return Ok(told);
    };
    let mut rest = bare(line_of(text, number).as_bytes());
    while let Some((token, after)) = next_token(rest) {
        if let Token::Word(word) = token
            && let Some(reference) = reference_of(word)
            && let Some(sentence) = told_of(alloc, &problem, "no row above", reference)?
        {
            told.push(sentence)?;
        }
        rest = after;
    }
    Ok(told)
}
