//! Reading one name of a store.
ghost use Rattle.std.specs.Prelude.{◌≡◌, refl};
ghost use Rattle.std.proofs.Common.{◌∙◌};
ghost use Rattle.outer_store.specs.Reader.{unread};
ghost use Rattle.outer_store.specs.States.{IsQuiet, OnlyRead, IsQuiet-joins, OnlyRead-stays, OnlyRead-joins};
ghost use Rattle.outer_store.specs.ReaderParts.{reader_store, reader_name, reader_place};

use crate::{Source, Store, StoreFault};

/// The bytes of one name of a store, from the front to the end.
#[derive(Drop)]
pub struct StoreReader<'a, S: Store> {
    store: &'a mut S,
    name: &'a str,
    place: u64,
}

impl<'a, S: Store> StoreReader<'a, S> {
    /// Reads the name from its front.
    pub fn new(store: &'a mut S, name: &'a str) -> Self
        ensures same_reference { (reader_store result).ghost_name ≡ store.entry.ghost_name }
        ensures store { (reader_store result).now ≡ store.old }
        ensures name { reader_name result ≡ name.entry }
        ensures place { reader_place result ≡ 0 }
        ensures left { unread ((S.state (reader_store result).now).held (reader_name result).now) (reader_place result) ≡ (S.state store.old).held name.now }
    {
        StoreReader {
            store,
            name,
            place: 0,
        }
    }
}

impl<'a, S: Store> Source for StoreReader<'a, S> {
    ghost left = { λ r. unread ((S.state (reader_store r).now).held (reader_name r).now) (reader_place r) };

    ghost faults = { λ r. (S.state (reader_store r).now).reads (reader_name r).now };

    ghost steady = { λ a b. (reader_name b ≡ reader_name a)
        × ((reader_store b).ghost_name ≡ (reader_store a).ghost_name)
        × OnlyRead (S.state (reader_store a).now) (S.state (reader_store b).now) };

    ghost quiet = { λ a b. IsQuiet (S.state (reader_store a).now) (S.state (reader_store b).now) };

    fn take(&mut self, into: &mut [u8]) -> Result<usize, StoreFault> {
        let count = self.store.read(self.name, self.place, into)?;
        self.place = self.place.saturating_add(count as u64);
        Ok(count)
    }

    ghost steady_stays = { λ s. (refl, refl, OnlyRead-stays (S.state (reader_store s).now)) };

    ghost steady_joins = { λ a b c first second. (
      second.0 ∙ first.0,
      second.1 ∙ first.1,
      OnlyRead-joins (S.state (reader_store a).now) (S.state (reader_store b).now) (S.state (reader_store c).now) first.2 second.2,
    ) };

    ghost quiet_stays = { λ s. (refl, refl) };

    ghost quiet_joins = { λ a b c first second. IsQuiet-joins (S.state (reader_store a).now) (S.state (reader_store b).now) (S.state (reader_store c).now) first second };
}
