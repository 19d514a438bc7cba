//! The words of a line, put at the end of a text with a space before each.

ghost use Rattle.std.specs.Prelude.{◌≡◌, ◌++◌, ◌∷◌, [], ◌<◌, ◌^◌, map, decimal, OnOk, All};
ghost use Rattle.proof_text.specs.Words.{parted, switch_word, position_word, spelled};
ghost use Rattle.cert_text.specs.declared.line.Subject.TheVariants.{Narrowed, Kept};
ghost use Rattle.cert_text.specs.Lines.{last_word, bit_byte, elements_word, family_words, subject_words, version_words, node_words, IsSmallFamily, IsSmallSubject};

use crate::line::{Flags, RawFamily, Subject};
use proof_text::{print_number, print_position, switch_word};
use rcc5_core::{Position, Rel};
use std::alloc::AllocError;
use world_model::Switches;

pub(crate) fn put_number(out: &mut Vec<u8>, number: u64) -> Result<(), AllocError>
    ensures { OnOk result (out.new.items ≡ out.old.items ++ 32 ∷ decimal number) }
{
    out.push(b' ')?;
    print_number(out, number)
}

fn put_switch(out: &mut Vec<u8>, on: bool) -> Result<(), AllocError>
    ensures { OnOk result (out.new.items ≡ out.old.items ++ 32 ∷ switch_word on) }
{
    out.push(b' ')?;
    out.extend_from_slice(switch_word(on))
}

/// Puts the number of the version, and the switches.
pub(crate) fn put_version(out: &mut Vec<u8>, switches: Switches) -> Result<(), AllocError>
    ensures { OnOk result (out.new.items ≡ out.old.items ++ parted 32 (version_words switches)) }
{
    out.extend_from_slice(b" 1")?;
    put_switch(out, switches.nonempty)?;
    put_switch(out, switches.sibling)?;
    put_switch(out, switches.coverage)
}

/// Puts a blank and a position's word.
pub fn put_position(out: &mut Vec<u8>, position: &Position) -> Result<(), AllocError>
    ensures { OnOk result (out.new.items ≡ out.old.items ++ 32 ∷ position_word position.now) }
{
    out.push(b' ')?;
    print_position(out, position)
}

/// Puts the depth of a node, and the last relation on the way to it.
pub(crate) fn put_node(out: &mut Vec<u8>, node: (u32, Option<Rel>)) -> Result<(), AllocError>
    ensures { OnOk result (out.new.items ≡ out.old.items ++ parted 32 (node_words node.0 node.1)) }
{
    let (depth, last) = node;
    put_number(out, u64::from(depth))?;
    let last = match last {
        Some(rel) => rel.letter(),
        None => b'.',
    };
    out.push(b' ')?;
    out.push(last)?;
    Ok(())
}

// Puts numbers with a comma before each.
fn put_further(out: &mut Vec<u8>, numbers: &[u32]) -> Result<(), AllocError>
    ensures { OnOk result (out.new.items ≡ out.old.items ++ parted 44 (map decimal numbers.now)) }
{
    for number in numbers {
        out.push(b',')?;
        print_number(out, u64::from(*number))?;
    }
    Ok(())
}

fn put_set(out: &mut Vec<u8>, set: &[u32]) -> Result<(), AllocError>
    ensures text { OnOk result (out.new.items ≡ out.old.items ++ 32 ∷ elements_word set.now) }
    ensures small { All (λ x. x < 2 ^ 32) set.now }
{
    let [first, others @ ..] = set else {
        return out.extend_from_slice(b" -");
    };
    put_number(out, u64::from(*first))?;
    put_further(out, others)
}

fn put_sets(out: &mut Vec<u8>, sets: &[Vec<u32>]) -> Result<(), AllocError>
    ensures text { OnOk result (out.new.items ≡ out.old.items ++ parted 32 (map elements_word (map (λ v. v.items) sets.now))) }
    ensures small { OnOk result (All (λ set. All (λ x. x < 2 ^ 32) set.items) sets.now) }
{
    for set in sets {
        put_set(out, set)?;
    }
    Ok(())
}

pub(crate) fn put_family(out: &mut Vec<u8>, family: &RawFamily) -> Result<(), AllocError>
    ensures text { OnOk result (out.new.items ≡ out.old.items ++ parted 32 (family_words family.now)) }
    ensures small { OnOk result (IsSmallFamily family.now) }
{
    put_number(out, u64::from(family.universe()))?;
    put_sets(out, family.lists())
}

fn put_each_bit(out: &mut Vec<u8>, bits: &[bool]) -> Result<(), AllocError>
    ensures { OnOk result (out.new.items ≡ out.old.items ++ map bit_byte bits.now) }
{
    for bit in bits {
        out.push(if *bit { b'1' } else { b'0' })?;
    }
    Ok(())
}

fn put_bits(out: &mut Vec<u8>, bits: &[bool]) -> Result<(), AllocError>
    ensures { OnOk result (out.new.items ≡ out.old.items ++ 32 ∷ spelled bit_byte bits.now) }
{
    if bits.is_empty() {
        return out.extend_from_slice(b" .");
    }
    out.push(b' ')?;
    put_each_bit(out, bits)
}

fn put_narrowed(out: &mut Vec<u8>, pair: u32, rel: Rel) -> Result<(), AllocError>
    ensures { OnOk result (out.new.items ≡ out.old.items ++ parted 32 (subject_words (Narrowed pair rel))) }
{
    out.extend_from_slice(b" m")?;
    put_number(out, u64::from(pair))?;
    out.push(b' ')?;
    out.push(rel.letter())?;
    Ok(())
}

fn put_kept(out: &mut Vec<u8>, flags: &Flags) -> Result<(), AllocError>
    ensures { OnOk result (out.new.items ≡ out.old.items ++ parted 32 (subject_words (Kept flags.now))) }
{
    out.extend_from_slice(b" a")?;
    put_bits(out, flags.list())
}

/// Puts the words of a subject, each behind a blank.
pub fn put_subject(out: &mut Vec<u8>, subject: &Subject) -> Result<(), AllocError>
    ensures text { OnOk result (out.new.items ≡ out.old.items ++ parted 32 (subject_words subject.now)) }
    ensures small { IsSmallSubject subject.now }
{
    match subject {
        Subject::Narrowed { pair, rel } => put_narrowed(out, *pair, *rel),
        Subject::Kept(flags) => put_kept(out, flags),
    }
}
