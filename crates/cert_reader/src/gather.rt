//! A line brought together from blocks.

ghost use Rattle.std.specs.Prelude.{◌≡◌, ◌+◌, ◌≤◌, ◌^◌, false, [], ◌++◌, length, Ok, IfOk, ⊤};
ghost use Rattle.outer_store.specs.Faults.{Rose, IfFailed};
ghost use Rattle.proof_text.specs.Laws.{has_byte};
ghost use Rattle.cert_reader.specs.Bytes.{IsSpent, MayCome, GoesOn};
ghost use Rattle.cert_reader.specs.declared.gather.Gathered.TheVariants.{Rest};
ghost use Rattle.cert_reader.specs.Reading.{faulty, reading_from};
ghost use Rattle.cert_reader.specs.Reader.{IsSpot, BeginsNone, IsGathered};

use crate::blocks::Blocks;
use crate::fault::CertTextKind;
use crate::spot::Spot;
use outer_store::{Source, StoreFault};

/// What was brought together.
#[derive(Clone, Copy)]
pub(crate) enum Gathered {
    /// A line up to its LF.
    Line,
    /// All that was left, with no LF.
    Rest,
    /// A line with a fault that shows before all of it is kept.
    Faulty(CertTextKind),
}

/// Puts the bytes up to the next LF, or all that are left, into an empty line; but it keeps no more once these are more
/// than there is room for, or begin no line that may stand there.
pub(crate) fn gather<R: Source>(
    blocks: &mut Blocks,
    line: &mut Vec<u8>,
    spot: Spot,
    source: &mut R,
) -> Result<Gathered, StoreFault>
    requires empty { line.old.items ≡ [] }
    requires spot { IsSpot spot }
    ensures bytes { IfOk result (λ how. GoesOn (MayCome blocks.old (R.left source.old)) (MayCome blocks.new (R.left source.new)) (λ old new. IsGathered how spot old new line.new.items)) }
    ensures rest { result ≡ Ok Rest → (blocks.new ≡ []) × (length blocks.old ≤ length line.new.items) }
    ensures spent { result ≡ Ok Rest → IsSpent (R.left source.new) }
    ensures cause { IfFailed result (Rose (R.faults source.old) (R.faults source.new)) (R.faults source.new ≡ R.faults source.old) }
    ensures later { R.faults source.old ≤ R.faults source.new }
    ensures steady { R.steady source.old source.new }
    ensures quiet { IfFailed result ⊤ (R.quiet source.old source.new) }
{
    loop {
        if blocks.take_line(line)? {
            return Ok(Gathered::Line);
        }
        if line.len() as u64 > spot.room() {
            return Ok(Gathered::Faulty(CertTextKind::TooLong));
        }
        if spot.mode.refuses(line) {
            return Ok(Gathered::Faulty(pass(blocks, line, spot, source)?));
        }
        if !blocks.fill(source)? {
            return Ok(Gathered::Rest);
        }
    }
}

/// The fault of a line whose front begins none: the others of its bytes are counted, and not kept.
fn pass<R: Source>(
    blocks: &mut Blocks,
    front: &[u8],
    spot: Spot,
    source: &mut R,
) -> Result<CertTextKind, StoreFault>
    requires empty { blocks.old ≡ [] }
    requires spot { IsSpot spot }
    requires room { spot.place + length front.now ≤ 2 ^ 36 }
    requires no_lf { has_byte 10 front.now ≡ false }
    requires none { BeginsNone spot.mode front.now }
    ensures fault { IfOk result (λ kind. GoesOn (MayCome blocks.old (R.left source.old)) (MayCome blocks.new (R.left source.new)) (λ old new. reading_from spot (front.now ++ old) ≡ faulty spot kind)) }
    ensures cause { IfFailed result (Rose (R.faults source.old) (R.faults source.new)) (R.faults source.new ≡ R.faults source.old) }
    ensures later { R.faults source.old ≤ R.faults source.new }
    ensures steady { R.steady source.old source.new }
    ensures quiet { IfFailed result ⊤ (R.quiet source.old source.new) }
{
    let mut count = front.len() as u64;
    loop {
        if !blocks.fill(source)? {
            return Ok(spot.fault_at_end());
        }
        let (found, passed) = blocks.pass_line();
        count += passed as u64;
        if count > spot.room() {
            return Ok(CertTextKind::TooLong);
        }
        if found {
            return Ok(CertTextKind::BadLine);
        }
    }
}
