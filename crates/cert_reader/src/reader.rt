//! A certificate, read line by line.

ghost use Rattle.std.specs.Prelude.{◌≡◌, ◌≤◌, [], None, Some, Err, IfOk, IfErr, OnOk, IfSome, IfNone, ⊤};
ghost use Rattle.outer_store.specs.Faults.{Rose};
ghost use Rattle.cert_reader.specs.Bytes.{IsSpent, GoesOn};
ghost use Rattle.cert_reader.specs.Reading.{first_spot};
ghost use Rattle.cert_reader.specs.Reader.{MayRead, IsAnswer, IfReadFault};

use crate::blocks::Blocks;
use crate::fault::CertTextFault;
use crate::gather::{Gathered, gather};
use crate::spot::Spot;
use cert_text::CertLine;
use outer_store::{Source, StoreFault};
use std::alloc::{AllocError, Global};
use std::marker::Model;

/// A reader of the lines of a certificate. Its memory follows the longest line of which the first word may stand there.
#[derive(Drop)]
pub struct CertReader {
    alloc: Global,
    blocks: Blocks,
    line: Vec<u8>,
    spot: Spot,
    refusal: Option<CertTextFault>,
}

impl Model for CertReader {
    ghost use Rattle.cert_reader.specs.Reader.{Reader, IsSpot};

    ghost Value = { Reader };

    ghost view = { λ r. record { spot = r.spot; pending = r.blocks; refusal = r.refusal } };

    ghost invariant = { λ r. IsSpot r.spot };
}

impl CertReader {
    /// A reader at the top of a certificate.
    pub fn new(alloc: Global) -> Result<CertReader, AllocError>
        ensures { IfOk result (λ reader. reader ≡ record { spot = first_spot; pending = []; refusal = None }) }
    {
        Ok(CertReader {
            alloc,
            blocks: Blocks::new(alloc)?,
            line: Vec::new(alloc),
            spot: Spot::first(),
            refusal: None,
        })
    }

    /// The next line, and none where the bytes end after the last one. After a refusal it is refused again.
    pub fn next<R: Source>(&mut self, source: &mut R) -> Result<Option<CertLine>, CertTextFault>
        ensures answer { self.old.refusal ≡ None → GoesOn (MayRead self.old (R.left source.old)) (MayRead self.new (R.left source.new)) (IsAnswer result) }
        ensures stays { IfOk result (λ line. IfNone line (self.new ≡ self.old)) }
        ensures spent { IfOk result (λ line. IfNone line (IsSpent (R.left source.new))) }
        ensures refused { IfErr result (λ fault. self.new.refusal ≡ Some fault) }
        ensures open { OnOk result (self.new.refusal ≡ None) }
        ensures again { IfSome self.old.refusal (λ fault. (result ≡ Err fault) × (self.new ≡ self.old) × (source.new ≡ source.old)) }
        ensures cause { self.old.refusal ≡ None → IfReadFault result (Rose (R.faults source.old) (R.faults source.new)) (R.faults source.new ≡ R.faults source.old) }
        ensures later { R.faults source.old ≤ R.faults source.new }
        ensures steady { R.steady source.old source.new }
        ensures quiet { IfReadFault result ⊤ (R.quiet source.old source.new) }
    {
        if let Some(fault) = self.refusal {
            return Err(fault);
        }
        let answer = self.read_next(source);
        if let Err(fault) = &answer {
            self.refusal = Some(*fault);
        }
        answer
    }

    fn read_next<R: Source>(&mut self, source: &mut R) -> Result<Option<CertLine>, CertTextFault>
        ensures answer { GoesOn (MayRead self.old (R.left source.old)) (MayRead self.new (R.left source.new)) (IsAnswer result) }
        ensures stays { IfOk result (λ line. IfNone line (self.new ≡ self.old)) }
        ensures spent { IfOk result (λ line. IfNone line (IsSpent (R.left source.new))) }
        ensures refusal { self.new.refusal ≡ self.old.refusal }
        ensures cause { IfReadFault result (Rose (R.faults source.old) (R.faults source.new)) (R.faults source.new ≡ R.faults source.old) }
        ensures later { R.faults source.old ≤ R.faults source.new }
        ensures steady { R.steady source.old source.new }
        ensures quiet { IfReadFault result ⊤ (R.quiet source.old source.new) }
    {
        self.line.clear();
        match gather(&mut self.blocks, &mut self.line, self.spot, source) {
            Ok(Gathered::Line) => {
                let (line, after) = self.spot.line_at(self.alloc, &self.line)?;
                self.spot = after;
                Ok(Some(line))
            }
            Ok(Gathered::Rest) => self.spot.end(&self.line),
            Ok(Gathered::Faulty(kind)) => Err(self.spot.fault(kind)),
            Err(StoreFault::Failed) => Err(CertTextFault::ReadFault),
            Err(StoreFault::NoMemory) => Err(CertTextFault::NoMemory),
        }
    }
}
