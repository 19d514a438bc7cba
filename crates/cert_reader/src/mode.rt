//! Where a line of a certificate stands, and which may stand there.

ghost use Rattle.std.specs.Prelude.{◌≡◌, ℕ, ◌==◌, true, false, List, ◌∷◌, position, Err};
ghost use Rattle.proof_text.specs.declared.fault.LineTextFault.TheVariants as line_fault;
ghost use Rattle.proof_text.specs.Lines.{Gives};
ghost use Rattle.proof_text.specs.Words.{words_of};
ghost use Rattle.cert_reader.specs.Reading.{may_stand, after_end, mode_after, fits_in, line_in, is_over};
ghost use Rattle.cert_reader.specs.Reader.{BeginsNone};

use cert_text::{CertLine, LineKind, kind_in, read_rest};
use proof_text::{LineTextFault, Words};
use std::alloc::Global;

/// How long the longest first word of a line is, `certificate`.
const LONGEST_WORD: usize = 11;

/// Where a line stands.
#[derive(Clone, Copy, PartialEq, Eq)]
pub(crate) enum Mode {
    /// At the top.
    Header,
    /// In a listing.
    Listing,
    /// Between the blocks of claims.
    Between,
    /// In a block's tree.
    Block,
    /// Behind the last line.
    Over,
}

impl Mode {
    fn may_stand(self, kind: LineKind) -> bool
        ensures { result ≡ may_stand self kind }
    {
        match kind {
            LineKind::Certificate | LineKind::Claims => self == Mode::Header,
            LineKind::Derive | LineKind::Forget => {
                self == Mode::Listing || self == Mode::Between || self == Mode::Block
            }
            LineKind::Branch | LineKind::NoPoint | LineKind::NoRelation | LineKind::End => {
                self == Mode::Listing || self == Mode::Block
            }
            LineKind::World => self == Mode::Listing,
            LineKind::Holds | LineKind::Fails | LineKind::Done => self == Mode::Between,
            LineKind::Quit => self == Mode::Block,
        }
    }

    /// Whether no line may stand there any more.
    pub(crate) fn is_over(self) -> bool
        ensures { result ≡ is_over self }
    {
        self == Mode::Over
    }

    /// Where the next line stands.
    pub(crate) fn after(self, line: &CertLine) -> Mode
        ensures { result ≡ mode_after self line.now }
    {
        match line {
            CertLine::Certificate { .. } => Mode::Listing,
            CertLine::Claims { .. } | CertLine::Quit => Mode::Between,
            CertLine::Fails { .. } => Mode::Block,
            CertLine::End(_) => self.after_end(),
            CertLine::Done => Mode::Over,
            _ => self,
        }
    }

    fn after_end(self) -> Mode
        ensures { result ≡ after_end self }
    {
        if self == Mode::Block {
            Mode::Between
        } else {
            Mode::Over
        }
    }

    /// The line, unless it ends a block's tree before the end.
    fn fitting(self, line: CertLine) -> Result<CertLine, LineTextFault>
        ensures { result ≡ fits_in self line }
    {
        match (self, line) {
            (Mode::Block, CertLine::End(Some(_))) => Err(LineTextFault::BadLine),
            (_, line) => Ok(line),
        }
    }

    #[tactic(auto, unfolding(crate::specs::Reading::line_in))]
    fn is_begun_by(self, word: &[u8]) -> bool
        ensures { result ≡ false → (words : List (List ℕ)) → line_in self (word.now ∷ words) ≡ Err line_fault.BadLine }
    {
        match kind_in(word) {
            Some(kind) => self.may_stand(kind),
            None => false,
        }
    }

    /// Whether bytes show by the first word of theirs that they begin no line which may stand there.
    pub(crate) fn refuses(self, front: &[u8]) -> bool
        ensures { result ≡ true → BeginsNone self front.now }
    {
        match space_in(front) {
            Some(place) => !self.is_begun_by(&front[..place]),
            None => front.len() > LONGEST_WORD,
        }
    }

    /// The line that bytes without an LF spell, where it may stand there.
    pub(crate) fn read_line(self, alloc: Global, bytes: &[u8]) -> Result<CertLine, LineTextFault>
        ensures { Gives (λ line. line) result (line_in self (words_of 32 bytes.now)) }
    {
        self.read_words(alloc, &mut Words::new(bytes, b' '))
    }

    #[tactic(auto, unfolding(crate::specs::Reading::line_in))]
    fn read_words(self, alloc: Global, words: &mut Words) -> Result<CertLine, LineTextFault>
        ensures { Gives (λ line. line) result (line_in self words.old) }
    {
        let word = words.next_word().ok_or(LineTextFault::BadLine)?;
        let kind = kind_in(word).ok_or(LineTextFault::BadLine)?;
        if !self.may_stand(kind) {
            return Err(LineTextFault::BadLine);
        }
        let line = read_rest(alloc, kind, words)?;
        self.fitting(line)
    }
}

fn space_in(bytes: &[u8]) -> Option<usize>
    ensures { result ≡ position (λ b. b == 32) bytes.now }
{
    bytes.iter().position(|b| *b == b' ')
}
