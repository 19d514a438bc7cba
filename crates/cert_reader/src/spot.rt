//! Which line comes next, and what stands there.

ghost use Rattle.std.specs.Prelude.{◌≡◌, ◌-◌, ◌^◌, if◌then◌else◌, length, IfOk, IfNone, OnOk};
ghost use Rattle.cert_reader.specs.declared.fault.CertTextFault.TheVariants.{Text};
ghost use Rattle.cert_reader.specs.declared.fault.CertTextKind.TheVariants.{BadLine, EndsEarly};
ghost use Rattle.cert_reader.specs.Reading.{first_spot, is_over, rest_fault, line_at};
ghost use Rattle.cert_reader.specs.Reader.{IsSpot, IsToldAt, ended_by};

use crate::fault::{CertTextFault, CertTextKind};
use crate::mode::Mode;
use cert_text::CertLine;
use proof_text::LineTextFault;
use std::alloc::Global;

/// The greatest length of a certificate in bytes.
const LIMIT: u64 = 1 << 36;

/// What stands before a line: in which mode it stands, its number, counted from 1, and how many bytes come before it.
#[derive(Clone, Copy)]
pub(crate) struct Spot {
    pub(crate) mode: Mode,
    pub(crate) line: u64,
    pub(crate) place: u64,
}

impl Spot {
    /// The spot of the first line.
    pub(crate) fn first() -> Spot
        ensures { result ≡ first_spot }
    {
        Spot {
            mode: Mode::Header,
            line: 1,
            place: 0,
        }
    }

    /// How many bytes the line may have.
    pub(crate) fn room(self) -> u64
        requires { IsSpot self }
        ensures { result ≡ 2 ^ 36 - self.place }
    {
        LIMIT - self.place
    }

    /// The fault of the text in the line.
    pub(crate) fn fault(self, kind: CertTextKind) -> CertTextFault
        ensures { result ≡ Text self.line kind }
    {
        CertTextFault::Text {
            line: self.line,
            kind,
        }
    }

    /// The answer where bytes with no LF behind them are all that is left.
    pub(crate) fn end(self, bytes: &[u8]) -> Result<Option<CertLine>, CertTextFault>
        requires { IsSpot self }
        ensures answer { result ≡ ended_by self (rest_fault self bytes.now) }
        ensures none { OnOk result (length bytes.now ≡ 0) }
    {
        match self.rest_fault(bytes) {
            Some(kind) => Err(self.fault(kind)),
            None => Ok(None),
        }
    }

    /// The fault of bytes with no LF behind them, if any.
    #[tactic(auto, unfolding(crate::specs::Reading::rest_fault))]
    fn rest_fault(self, bytes: &[u8]) -> Option<CertTextKind>
        requires { IsSpot self }
        ensures fault { result ≡ rest_fault self bytes.now }
        ensures none { IfNone result (length bytes.now ≡ 0) }
    {
        if bytes.len() as u64 > self.room() {
            Some(CertTextKind::TooLong)
        } else if !self.mode.is_over() {
            Some(CertTextKind::EndsEarly)
        } else if bytes.is_empty() {
            None
        } else {
            Some(CertTextKind::BadLine)
        }
    }

    /// The fault where the bytes end in a line that has some, and has room for these.
    pub(crate) fn fault_at_end(self) -> CertTextKind
        ensures { result ≡ (if is_over self.mode then BadLine else EndsEarly) }
    {
        if self.mode.is_over() {
            CertTextKind::BadLine
        } else {
            CertTextKind::EndsEarly
        }
    }

    /// The line that bytes before an LF spell, and the spot after it.
    #[tactic(auto, unfolding(crate::specs::Reading::line_at))]
    pub(crate) fn line_at(
        self,
        alloc: Global,
        bytes: &[u8],
    ) -> Result<(CertLine, Spot), CertTextFault>
        requires { IsSpot self }
        ensures exact { IsToldAt self (line_at self bytes.now) result }
        ensures spot { IfOk result (λ read. IsSpot read.1) }
    {
        let length = bytes.len() as u64;
        if length >= self.room() {
            return Err(self.fault(CertTextKind::TooLong));
        }
        match self.mode.read_line(alloc, bytes) {
            Ok(line) => {
                let after = Spot {
                    mode: self.mode.after(&line),
                    line: self.line + 1,
                    place: self.place + length + 1,
                };
                Ok((line, after))
            }
            Err(LineTextFault::BadLine) => Err(self.fault(CertTextKind::BadLine)),
            Err(LineTextFault::BadNumber) => Err(self.fault(CertTextKind::BadNumber)),
            Err(LineTextFault::NoMemory) => Err(CertTextFault::NoMemory),
        }
    }
}
