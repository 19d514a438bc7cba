//! The parts that the files under some names are certificates of.

ghost use Rattle.std.specs.Prelude.{◌≡◌, map, string_bytes, IfOk, OnOk, All};
ghost use Rattle.outer_store.specs.Faults.{Rose};
ghost use Rattle.outer_store.specs.States.{IsQuiet};
ghost use Rattle.cert_reader.specs.Bytes.{MayHold, ForSome};
ghost use Rattle.cert_reader.specs.Reading.{reading};
ghost use Rattle.cert_rules.specs.Laws.{VerdictIsSo};
ghost use Rattle.cert_check.specs.Answers.{verdict_of, IsAnswerOf, IfReadFault as IfUnread};
ghost use Rattle.part_join.specs.Parts.{IsListed};
ghost use Rattle.part_join.specs.Joining.{AreParts, MayHoldAll, SomeRose, IfReadFault};
ghost use Rattle.part_join.specs.Reads.{fault_of, as_part, IsPartOf, IsReadOf};

use crate::fault::JoinFault;
use crate::part::Part;
use cert_check::{Accepted, CheckFault, Checks};
use cert_reader::CertTextKind;
use cert_rules::PartKind;
use constraint_set::Problem;
use outer_store::{Store, StoreReader};
use std::alloc::Global;

// Why the file of a number is no certificate of a part.
fn fault_of(number: u64, fault: CheckFault) -> JoinFault
    ensures { result ≡ fault_of number fault }
{
    match fault {
        CheckFault::Text { line, kind } => JoinFault::PartRefused {
            part: number,
            line,
            kind: PartKind::Text(kind),
        },
        CheckFault::Rejected { line, kind } => JoinFault::PartRefused {
            part: number,
            line,
            kind: PartKind::Rejected(kind),
        },
        CheckFault::ReadFault => JoinFault::ReadFault,
        CheckFault::NoMemory => JoinFault::NoMemory,
    }
}

// The part that a check accepted of the file of a number. Claims are no part.
fn as_part(number: u64, said: Result<Accepted, CheckFault>) -> Result<Part, JoinFault>
    ensures { result ≡ as_part number said }
{
    match said {
        Ok(Accepted::Listing { from, to, worlds }) => Ok(Part {
            from,
            to,
            worlds: worlds.into_list(),
        }),
        Ok(Accepted::Claims(_)) => Err(JoinFault::PartRefused {
            part: number,
            line: 1,
            kind: PartKind::Text(CertTextKind::BadLine),
        }),
        Err(fault) => Err(fault_of(number, fault)),
    }
}

// What a check says of the file under a name.
fn check_under<S: Store>(
    checks: &mut Checks,
    store: &mut S,
    name: &str,
) -> Result<Accepted, CheckFault>
    ensures answer { ForSome (MayHold ((S.state store.old).held name.now)) (λ bytes. IsAnswerOf checks.old (reading bytes) result) }
    ensures so { IfOk result (λ said. VerdictIsSo checks.old (verdict_of said)) }
    ensures contents { (S.state store.new).held ≡ (S.state store.old).held }
    ensures cause { IfUnread result (Rose ((S.state store.old).reads name.now) ((S.state store.new).reads name.now)) (IsQuiet (S.state store.old) (S.state store.new)) }
    ensures problem { checks.new ≡ checks.old }
{
    let mut reader = StoreReader::new(store, name);
    checks.check(&mut reader)
}

// The part that the file of a number, which a name holds, is a certificate of.
fn part_under<S: Store>(
    checks: &mut Checks,
    store: &mut S,
    number: u64,
    name: &str,
) -> Result<Part, JoinFault>
    ensures answer { ForSome (MayHold ((S.state store.old).held name.now)) (λ bytes. IsPartOf checks.old number bytes result) }
    ensures listed { IfOk result (IsListed checks.old) }
    ensures contents { (S.state store.new).held ≡ (S.state store.old).held }
    ensures cause { IfReadFault result (Rose ((S.state store.old).reads name.now) ((S.state store.new).reads name.now)) (IsQuiet (S.state store.old) (S.state store.new)) }
    ensures problem { checks.new ≡ checks.old }
{
    as_part(number, check_under(checks, store, name))
}

/// The parts that the files under some names are certificates of, one each, or the first that is none.
pub(crate) fn read_parts<S: Store>(
    alloc: Global,
    problem: &Problem,
    store: &mut S,
    names: &[String],
) -> Result<Vec<Part>, JoinFault>
    ensures answer { ForSome (MayHoldAll (S.state store.old).held (map string_bytes names.now)) (λ files. IsReadOf problem.now files (λ parts. AreParts problem.now files parts.items) result) }
    ensures listed { IfOk result (λ parts. All (IsListed problem.now) parts.items) }
    ensures contents { (S.state store.new).held ≡ (S.state store.old).held }
    ensures cause { IfReadFault result (SomeRose (map string_bytes names.now) (S.state store.old).reads (S.state store.new).reads) (IsQuiet (S.state store.old) (S.state store.new)) }
{
    let mut checks = Checks::new(alloc, problem)?;
    let mut parts = Vec::new(alloc);
    for place in 0..names.len() {
        match part_under(&mut checks, store, place as u64 + 1, names[place].as_str()) {
            Ok(part) => parts.push(part)?,
            Err(fault) => return Err(fault),
        }
    }
    Ok(parts)
}
