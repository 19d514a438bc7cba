//! The bytes of a source, taken in blocks.

ghost use Rattle.std.specs.Prelude.{◌≡◌, ℕ, ◌≤◌, ◌+◌, ◌++◌, ◌==◌, List, [], not, length, drop, position, option_map, IfOk, IfSome, OnOk, OnErr, ⊤};
ghost use Rattle.outer_store.specs.Faults.{Rose, IfFailed};
ghost use Rattle.cert_reader.specs.Bytes.{IsMoved};

use outer_store::{Source, StoreFault};
use std::alloc::{AllocError, Global};
use std::marker::Model;

/// How many bytes are asked for at a time.
const BLOCK: usize = 65_536;

/// Bytes of a source that were taken and are still to come, seen as these.
#[derive(Drop)]
pub(crate) struct Blocks {
    block: Vec<u8>,
    from: usize,
    upto: usize,
}

impl Model for Blocks {
    ghost use Rattle.std.specs.Prelude.{ℕ, List};
    ghost use Rattle.cert_reader.specs.Bytes.{part_of, IsBlock};

    ghost Value = { List ℕ };

    ghost view = { λ b. part_of b.block.items b.from b.upto };

    ghost invariant = { λ b. IsBlock b.block.items b.from b.upto };
}

impl Blocks {
    /// No bytes yet.
    pub(crate) fn new(alloc: Global) -> Result<Blocks, AllocError>
        ensures { IfOk result (λ blocks. blocks ≡ []) }
    {
        let block = vec![in alloc; 0; BLOCK]?;
        Ok(Blocks {
            block,
            from: 0,
            upto: 0,
        })
    }

    fn pending(&self) -> &[u8]
        ensures value { result.now ≡ self.now }
        ensures short { length result.now ≤ 65536 }
    {
        &self.block[self.from..self.upto]
    }

    fn skip(&mut self, count: usize)
        requires { count ≤ length self.old }
        ensures { self.new ≡ drop count self.old }
    {
        self.from += count;
    }

    /// Takes the next block of a source, where no byte of the last is left. It answers whether there was one.
    pub(crate) fn fill<R: Source>(&mut self, source: &mut R) -> Result<bool, StoreFault>
        requires { self.old ≡ [] }
        ensures ok { OnOk result (option_map (λ rest. self.new ++ rest) (R.left source.new) ≡ R.left source.old) }
        ensures more { IfOk result (λ more. more ≡ not (length self.new == 0)) }
        ensures short { length self.new ≤ 65536 }
        ensures ended { IfOk result (λ more. IfSome (R.left source.old) (λ bytes. more ≡ not (length bytes == 0))) }
        ensures cause { IfFailed result (Rose (R.faults source.old) (R.faults source.new)) (R.faults source.new ≡ R.faults source.old) }
        ensures later { R.faults source.old ≤ R.faults source.new }
        ensures steady { R.steady source.old source.new }
        ensures quiet { IfFailed result ⊤ (R.quiet source.old source.new) }
    {
        self.from = 0;
        self.upto = 0;
        let count = source.take(&mut self.block)?;
        self.upto = count;
        Ok(count > 0)
    }

    /// Moves bytes to the end of a line, up to the next LF, which is taken off too. It answers whether there was one.
    pub(crate) fn take_line(&mut self, line: &mut Vec<u8>) -> Result<bool, AllocError>
        ensures { IfOk result (λ found. IsMoved found self.old self.new line.old.items line.new.items) }
    {
        match lf_in(self.pending()) {
            Some(place) => {
                line.extend_from_slice(&self.pending()[..place])?;
                self.skip(place + 1);
                Ok(true)
            }
            None => {
                line.extend_from_slice(self.pending())?;
                self.skip(self.pending().len());
                Ok(false)
            }
        }
    }

    /// Takes bytes off up to the next LF, that one too, and keeps none. It answers whether there was an LF, and how many
    /// bytes were taken off.
    pub(crate) fn pass_line(&mut self) -> (bool, usize)
        ensures moved { (moved : List ℕ) × IsMoved result.0 self.old self.new [] moved }
        ensures count { length self.old ≡ result.1 + length self.new }
    {
        match lf_in(self.pending()) {
            Some(place) => {
                self.skip(place + 1);
                (true, place + 1)
            }
            None => {
                let count = self.pending().len();
                self.skip(count);
                (false, count)
            }
        }
    }
}

fn lf_in(bytes: &[u8]) -> Option<usize>
    ensures { result ≡ position (λ b. b == 10) bytes.now }
{
    bytes.iter().position(|b| *b == b'\n')
}
