//! A line of a certificate, read from its text.

ghost use Rattle.std.specs.Prelude.{◌≡◌, map, IfOk};
ghost use Rattle.proof_text.specs.Lines.{Gives};
ghost use Rattle.cert_text.specs.Lines.{node_of, subject_of, narrowed_of, kept_of, sets_of, family_of, switches_of, version_of, ended, certificate_of, claims_of, branch_of, no_point_of, no_relation_of, world_of, holds_of, fails_of, end_of, rest_of, cert_line_of_words, cert_line_of, cert_text, IdsFromOne};

use crate::items::{
    bits_at, elements_at, end_at, id_at, last_at, need_at, next_word, position_at, relation_at,
    small_at, switch_at,
};
use crate::kind::{LineKind, kind_in};
use crate::line::{CertLine, RawFamily, Subject};
use proof_text::{LineTextFault, Words, read_derive, read_forget};
use rcc5_core::Rel;
use std::alloc::Global;
use world_model::Switches;

/// The line that bytes without an LF spell, or their first fault from the left.
pub fn read_cert_line(alloc: Global, bytes: &[u8]) -> Result<CertLine, LineTextFault>
    ensures exact { Gives (λ line. line) result (cert_line_of bytes.now) }

    // No other bytes spell the line, and it can be printed.
    ensures text { IfOk result (λ line. bytes.now ≡ cert_text line) }
    ensures ids { IfOk result IdsFromOne }
{
    read_words(alloc, &mut Words::new(bytes, b' '))
}

#[tactic(auto, unfolding(crate::specs::Lines::cert_line_of_words))]
fn read_words(alloc: Global, words: &mut Words) -> Result<CertLine, LineTextFault>
    ensures { Gives (λ line. line) result (cert_line_of_words words.old) }
{
    let word = next_word(words)?;
    let kind = kind_in(word).ok_or(LineTextFault::BadLine)?;
    read_rest(alloc, kind, words)
}

/// A line of a kind, from the words after its first.
pub fn read_rest(
    alloc: Global,
    kind: LineKind,
    words: &mut Words,
) -> Result<CertLine, LineTextFault>
    ensures { Gives (λ line. line) result (rest_of kind words.old) }
{
    match kind {
        LineKind::Certificate => read_certificate(alloc, words),
        LineKind::Claims => read_claims(words),
        LineKind::Derive => Ok(CertLine::Proof(read_derive(alloc, words)?)),
        LineKind::Forget => Ok(CertLine::Proof(read_forget(alloc, words)?)),
        LineKind::Branch => read_branch(words),
        LineKind::NoPoint => read_no_point(words),
        LineKind::NoRelation => read_no_relation(words),
        LineKind::World => read_world(alloc, words),
        LineKind::Holds => read_holds(alloc, words),
        LineKind::Fails => read_fails(alloc, words),
        LineKind::End => read_end(alloc, words),
        LineKind::Quit => ended(words, CertLine::Quit),
        LineKind::Done => ended(words, CertLine::Done),
    }
}

/// The line, if no word is left.
fn ended(words: &mut Words, line: CertLine) -> Result<CertLine, LineTextFault>
    ensures { result ≡ ended words.old line }
{
    match words.next_word() {
        Some(_) => Err(LineTextFault::BadLine),
        None => Ok(line),
    }
}

#[tactic(auto, unfolding(crate::specs::Lines::switches_of))]
fn read_switches(words: &mut Words) -> Result<Switches, LineTextFault>
    ensures { Gives (λ switches. (switches, words.new)) result (switches_of words.old) }
{
    let nonempty = switch_at(next_word(words)?)?;
    let sibling = switch_at(next_word(words)?)?;
    let coverage = switch_at(next_word(words)?)?;
    Ok(Switches {
        nonempty,
        sibling,
        coverage,
    })
}

#[tactic(auto, unfolding(crate::specs::Lines::version_of))]
fn read_version(words: &mut Words) -> Result<Switches, LineTextFault>
    ensures { Gives (λ switches. (switches, words.new)) result (version_of words.old) }
{
    match next_word(words)? {
        b"1" => read_switches(words),
        _ => Err(LineTextFault::BadLine),
    }
}

#[tactic(auto, unfolding(crate::specs::Lines::certificate_of))]
fn read_certificate(alloc: Global, words: &mut Words) -> Result<CertLine, LineTextFault>
    ensures { Gives (λ line. line) result (certificate_of words.old) }
{
    let switches = read_version(words)?;
    let from = position_at(alloc, next_word(words)?)?;
    ended(words, CertLine::Certificate { switches, from })
}

#[tactic(auto, unfolding(crate::specs::Lines::claims_of))]
fn read_claims(words: &mut Words) -> Result<CertLine, LineTextFault>
    ensures { Gives (λ line. line) result (claims_of words.old) }
{
    let switches = read_version(words)?;
    ended(words, CertLine::Claims { switches })
}

/// The depth of a node, and the last relation on the way to it.
#[tactic(auto, unfolding(crate::specs::Lines::node_of))]
fn read_node(words: &mut Words) -> Result<(u32, Option<Rel>), LineTextFault>
    ensures { Gives (λ node. (node, words.new)) result (node_of words.old) }
{
    let depth = small_at(next_word(words)?)?;
    let last = last_at(next_word(words)?)?;
    Ok((depth, last))
}

#[tactic(auto, unfolding(crate::specs::Lines::branch_of))]
fn read_branch(words: &mut Words) -> Result<CertLine, LineTextFault>
    ensures { Gives (λ line. line) result (branch_of words.old) }
{
    let (depth, last) = read_node(words)?;
    ended(words, CertLine::Branch { depth, last })
}

#[tactic(auto, unfolding(crate::specs::Lines::no_point_of))]
fn read_no_point(words: &mut Words) -> Result<CertLine, LineTextFault>
    ensures { Gives (λ line. line) result (no_point_of words.old) }
{
    let (depth, last) = read_node(words)?;
    let need = need_at(next_word(words)?)?;
    let clause = id_at(next_word(words)?)?;
    let line = CertLine::NoPoint {
        depth,
        last,
        need,
        clause,
    };
    ended(words, line)
}

#[tactic(auto, unfolding(crate::specs::Lines::no_relation_of))]
fn read_no_relation(words: &mut Words) -> Result<CertLine, LineTextFault>
    ensures { Gives (λ line. line) result (no_relation_of words.old) }
{
    let (depth, last) = read_node(words)?;
    let pair = small_at(next_word(words)?)?;
    ended(words, CertLine::NoRelation { depth, last, pair })
}

/// The sets of all words that are left.
fn read_sets(alloc: Global, words: &mut Words) -> Result<Vec<Vec<u32>>, LineTextFault>
    ensures { Gives (λ sets. map (λ v. v.items) sets.items) result (sets_of words.old) }
{
    let mut sets = Vec::new(alloc);
    while let Some(word) = words.next_word() {
        sets.push(elements_at(alloc, word)?)?;
    }
    Ok(sets)
}

#[tactic(auto, unfolding(crate::specs::Lines::family_of))]
fn read_family(alloc: Global, words: &mut Words) -> Result<RawFamily, LineTextFault>
    ensures { Gives (λ family. family) result (family_of words.old) }
{
    let universe = small_at(next_word(words)?)?;
    let lists = read_sets(alloc, words)?;
    Ok(RawFamily::new(universe, lists))
}

#[tactic(auto, unfolding(crate::specs::Lines::world_of))]
fn read_world(alloc: Global, words: &mut Words) -> Result<CertLine, LineTextFault>
    ensures { Gives (λ line. line) result (world_of words.old) }
{
    let (depth, last) = read_node(words)?;
    let family = read_family(alloc, words)?;
    Ok(CertLine::World {
        depth,
        last,
        family,
    })
}

#[tactic(auto, unfolding(crate::specs::Lines::narrowed_of))]
fn read_narrowed(words: &mut Words) -> Result<Subject, LineTextFault>
    ensures { Gives (λ subject. (subject, words.new)) result (narrowed_of words.old) }
{
    let pair = small_at(next_word(words)?)?;
    let rel = relation_at(next_word(words)?)?;
    Ok(Subject::Narrowed { pair, rel })
}

#[tactic(auto, unfolding(crate::specs::Lines::kept_of))]
fn read_kept(alloc: Global, words: &mut Words) -> Result<Subject, LineTextFault>
    ensures { Gives (λ subject. (subject, words.new)) result (kept_of words.old) }
{
    let bits = bits_at(alloc, next_word(words)?)?;
    Ok(Subject::Kept(bits))
}

#[tactic(auto, unfolding(crate::specs::Lines::subject_of))]
fn read_subject(alloc: Global, words: &mut Words) -> Result<Subject, LineTextFault>
    ensures { Gives (λ subject. (subject, words.new)) result (subject_of words.old) }
{
    match next_word(words)? {
        b"m" => read_narrowed(words),
        b"a" => read_kept(alloc, words),
        _ => Err(LineTextFault::BadLine),
    }
}

#[tactic(auto, unfolding(crate::specs::Lines::holds_of))]
fn read_holds(alloc: Global, words: &mut Words) -> Result<CertLine, LineTextFault>
    ensures { Gives (λ line. line) result (holds_of words.old) }
{
    let subject = read_subject(alloc, words)?;
    let family = read_family(alloc, words)?;
    Ok(CertLine::Holds { subject, family })
}

#[tactic(auto, unfolding(crate::specs::Lines::fails_of))]
fn read_fails(alloc: Global, words: &mut Words) -> Result<CertLine, LineTextFault>
    ensures { Gives (λ line. line) result (fails_of words.old) }
{
    let subject = read_subject(alloc, words)?;
    ended(words, CertLine::Fails { subject })
}

#[tactic(auto, unfolding(crate::specs::Lines::end_of))]
fn read_end(alloc: Global, words: &mut Words) -> Result<CertLine, LineTextFault>
    ensures { Gives (λ line. line) result (end_of words.old) }
{
    let to = end_at(alloc, next_word(words)?)?;
    ended(words, CertLine::End(to))
}
