//! The concept that a word names.
ghost use Rattle.std.specs.Prelude.{◌≡◌, ◌<◌, ◌∷◌, ◌++◌, bytes_eq, IfSome};
ghost use Rattle.world_model.specs.Problem.{concept_count};
ghost use Rattle.cleantax_text.specs.Canonical.{concept_text, concept_named};

use crate::print::owner_within;
use constraint_set::Problem;
use text_words::is_same;

// Whether this is a full stop and a name behind it.
#[tactic(auto, using(crate::proofs::DottedLemmas::dot_rules))]
fn is_dot_and(bytes: &[u8], name: &[u8]) -> bool
    ensures { result ≡ bytes_eq (46 ∷ name.now) bytes.now }
{
    match bytes {
        [b'.', rest @ ..] => is_same(name, rest),
        _ => false,
    }
}

// Whether a word is ID.NAME.
fn is_dotted(word: &[u8], id: &[u8], name: &[u8]) -> bool
    ensures { result ≡ bytes_eq (id.now ++ 46 ∷ name.now) word.now }
{
    match word.strip_prefix(id) {
        Some(rest) => is_dot_and(rest, name),
        None => false,
    }
}

// Whether a word is ID.NAME of this concept.
fn is_concept_text(problem: &Problem, concept: u32, word: &[u8]) -> bool
    requires { concept < concept_count problem.now }
    ensures { result ≡ bytes_eq (concept_text problem.now concept) word.now }
{
    let owner = owner_within(problem, concept);
    let id = problem.taxonomy_name(owner as usize);
    is_dotted(word, id, problem.name(concept))
}

/// The concept that a word names as `ID.NAME`.
#[tactic(auto, using(crate::proofs::DottedLemmas::named_rules))]
pub fn concept_named(problem: &Problem, word: &[u8]) -> Option<u32>
    ensures named { result ≡ concept_named problem.now word.now }
    ensures within { IfSome result (λ c. c < concept_count problem.now) }
{
    for concept in 0..problem.concept_count() {
        if is_concept_text(problem, concept, word) {
            return Some(concept);
        }
    }
    None
}
