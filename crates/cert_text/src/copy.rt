//! Second copies of lines.

ghost use Rattle.std.specs.Prelude.{◌≡◌, map, IfOk};
ghost use Rattle.lits_core.specs.declared.Line.TheVariants.{Derive};

use crate::line::{CertLine, Flags, RawFamily, Subject};
use lits_core::{Clause, Ids, Line};
use rcc5_core::Position;
use std::alloc::{AllocError, Global};

impl CertLine {
    /// A second line with the same words.
    pub fn copy(&self, alloc: Global) -> Result<CertLine, AllocError>
        ensures { IfOk result (λ copy. copy ≡ self.now) }
    {
        let copy = match self {
            CertLine::Certificate { switches, from } => CertLine::Certificate {
                switches: *switches,
                from: from.copy(alloc)?,
            },
            CertLine::Claims { switches } => CertLine::Claims {
                switches: *switches,
            },
            CertLine::Proof(line) => CertLine::Proof(copy_proof(alloc, line)?),
            CertLine::Branch { depth, last } => CertLine::Branch {
                depth: *depth,
                last: *last,
            },
            CertLine::NoPoint {
                depth,
                last,
                need,
                clause,
            } => CertLine::NoPoint {
                depth: *depth,
                last: *last,
                need: *need,
                clause: *clause,
            },
            CertLine::NoRelation { depth, last, pair } => CertLine::NoRelation {
                depth: *depth,
                last: *last,
                pair: *pair,
            },
            CertLine::World {
                depth,
                last,
                family,
            } => CertLine::World {
                depth: *depth,
                last: *last,
                family: copy_family(alloc, family)?,
            },
            CertLine::Holds { subject, family } => CertLine::Holds {
                subject: copy_subject(alloc, subject)?,
                family: copy_family(alloc, family)?,
            },
            CertLine::Fails { subject } => CertLine::Fails {
                subject: copy_subject(alloc, subject)?,
            },
            CertLine::End(to) => CertLine::End(copy_end(alloc, to)?),
            CertLine::Quit => CertLine::Quit,
            CertLine::Done => CertLine::Done,
        };
        Ok(copy)
    }
}

/// A second line of the derivation with the same words.
pub fn copy_proof(alloc: Global, line: &Line) -> Result<Line, AllocError>
    ensures { IfOk result (λ copy. copy ≡ line.now) }
{
    match line {
        Line::Derive { id, lits, hints } => copy_derive(alloc, *id, lits, hints),
        Line::Forget { ids } => Ok(Line::Forget {
            ids: copy_ids(alloc, ids)?,
        }),
    }
}

fn copy_derive(alloc: Global, id: u64, lits: &Clause, hints: &Ids) -> Result<Line, AllocError>
    ensures { IfOk result (λ copy. copy ≡ Derive id lits.now hints.now) }
{
    let lits = Clause::from_lits(alloc, lits.lits())?;
    let hints = copy_ids(alloc, hints)?;
    Ok(Line::Derive { id, lits, hints })
}

fn copy_ids(alloc: Global, ids: &Ids) -> Result<Ids, AllocError>
    ensures { IfOk result (λ copy. copy ≡ ids.now) }
{
    Ok(Ids::new(Vec::from_slice(alloc, ids.list())?))
}

fn copy_family(alloc: Global, family: &RawFamily) -> Result<RawFamily, AllocError>
    ensures { IfOk result (λ copy. copy ≡ family.now) }
{
    let lists = copy_lists(alloc, family.lists())?;
    Ok(RawFamily::new(family.universe(), lists))
}

fn copy_lists(alloc: Global, lists: &[Vec<u32>]) -> Result<Vec<Vec<u32>>, AllocError>
    ensures { IfOk result (λ copy. map (λ v. v.items) copy.items ≡ map (λ v. v.items) lists.now) }
{
    let mut copy = Vec::new(alloc);
    for list in lists {
        copy.push(Vec::from_slice(alloc, list)?)?;
    }
    Ok(copy)
}

/// A second subject of the same words.
pub fn copy_subject(alloc: Global, subject: &Subject) -> Result<Subject, AllocError>
    ensures { IfOk result (λ copy. copy ≡ subject.now) }
{
    match subject {
        Subject::Narrowed { pair, rel } => Ok(Subject::Narrowed {
            pair: *pair,
            rel: *rel,
        }),
        Subject::Kept(flags) => {
            let list = Vec::from_slice(alloc, flags.list())?;
            Ok(Subject::Kept(Flags::new(list)))
        }
    }
}

fn copy_end(alloc: Global, to: &Option<Position>) -> Result<Option<Position>, AllocError>
    ensures { IfOk result (λ copy. copy ≡ to.now) }
{
    match to {
        Some(position) => Ok(Some(position.copy(alloc)?)),
        None => Ok(None),
    }
}
