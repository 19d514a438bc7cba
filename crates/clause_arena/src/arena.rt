//! The arena of clauses: their literals in one list, a head for each.
ghost use Rattle.std.specs.Prelude.{◌≡◌, ℕ, ◌+◌, ◌^◌, ◌<◌, ◌≤◌, ◌↔◌, IsTrue, MatchOption, [], ◌∷◌, ◌++◌, length, slice_index, slice_set, OnErr, OnOk, IfOk, None, Some, if◌then◌else◌, nat_lt, ◌==◌};
ghost use Rattle.clause_arena.specs.Records.{new_record, record_at, link_of, with_link, with_lits_swapped, forgotten, compacted};
ghost use Rattle.clause_arena.specs.Movings.{new_ref, place_after, AreMoves};

use crate::moves::Moves;
use crate::pack::pack;
use crate::place::{Link, Ref};
use std::alloc::{AllocError, Global};
use std::marker::Model;

// What is kept of a clause beside its codes, which stand from `start` on in the arena's list of codes.
#[derive(Clone, Copy)]
pub(crate) struct Head {
    pub(crate) id: u64,
    pub(crate) start: usize,
    pub(crate) len: u32,
    pub(crate) live: bool,
    pub(crate) link_0: Option<Link>,
    pub(crate) link_1: Option<Link>,
}

// A clause takes this and four bytes a literal.
const _: () = prove!(size_of::<Head>() <= 64);

impl Head {
    ghost use Rattle.clause_arena.specs.Layout.{with_head_link};

    fn linked(&self, slot: u8, to: Option<Link>) -> Head
        ensures { result ≡ with_head_link self.now slot to }
    {
        if slot == 0 {
            Head {
                link_0: to,
                ..*self
            }
        } else {
            Head {
                link_1: to,
                ..*self
            }
        }
    }
}

/// A list of clauses, each with an id, its literals' codes, whether it is live, and two links. A clause is named by a `Ref`, its place in the list.
#[derive(Drop)]
pub struct Arena {
    heads: Vec<Head>,
    codes: Vec<u32>,
}

impl Model for Arena {
    ghost use Rattle.std.specs.Prelude.{List, length, ◌≤◌, ◌^◌};
    ghost use Rattle.clause_arena.specs.Records.{Record};

    ghost Value = { List Record };

    ghost use Rattle.clause_arena.specs.Layout.{records_of, AreInOrder};

    ghost view = { λ a. records_of a.codes.items a.heads.items };

    ghost invariant = { λ a. AreInOrder 0 a.heads.items (length a.codes.items) × (length a.heads.items ≤ 2 ^ 32) };
}

impl Arena {
    /// An arena with no clause.
    pub fn new(alloc: Global) -> Arena
        ensures { result ≡ [] }
    {
        Arena {
            heads: Vec::new(alloc),
            codes: Vec::new(alloc),
        }
    }

    /// Adds a clause of these literal codes at the end: it is live and has no links.
    ///
    /// Answers want of memory also past 2^32 clauses, and where a clause has 2^32 literals.
    pub fn put(&mut self, lits: &[u32], id: u64) -> Result<Ref, AllocError>
        ensures at { IfOk result (λ at. at ≡ length self.old) }
        ensures ok { OnOk result (self.new ≡ self.old ++ new_record id lits.now ∷ []) }
        ensures err { OnErr result (self.new ≡ self.old) }
    {
        let Ok(place) = u32::try_from(self.heads.len()) else {
            return Err(AllocError);
        };
        let Ok(len) = u32::try_from(lits.len()) else {
            return Err(AllocError);
        };
        let start = self.codes.len();
        self.codes.extend_from_slice(lits)?;
        self.heads.push(Head {
            id,
            start,
            len,
            live: true,
            link_0: None,
            link_1: None,
        })?;
        Ok(Ref::new(place))
    }

    /// How many clauses there are, live or not.
    pub fn count(&self) -> usize
        ensures { result ≡ length self.now }
    {
        self.heads.len()
    }

    /// Whether a Ref is one of the list.
    pub fn contains(&self, at: Ref) -> bool
        ensures { IsTrue result ↔ (at < length self.now) }
    {
        at.index() < self.heads.len()
    }

    /// The Ref that the next clause gets; none where there are 2^32 clauses.
    pub fn next_ref(&self) -> Option<Ref>
        ensures { MatchOption result (2 ^ 32 ≤ length self.now) (λ at. at ≡ length self.now) }
    {
        match u32::try_from(self.heads.len()) {
            Ok(place) => Some(Ref::new(place)),
            Err(_) => None,
        }
    }

    /// The first clause; none where there is no clause.
    pub fn first(&self) -> Option<Ref>
        ensures { result ≡ (if length self.now == 0 then None else Some 0) }
    {
        if self.heads.is_empty() {
            None
        } else {
            Some(Ref::new(0))
        }
    }

    /// The clause at a place of the list; none where there are not so many.
    pub fn nth(&self, place: usize) -> Option<Ref>
        ensures { result ≡ (if nat_lt place (length self.now) then Some place else None) }
    {
        if place < self.heads.len() {
            Some(Ref::new(place as u32))
        } else {
            None
        }
    }

    /// The clause after a clause of the list; none after the last one.
    pub fn after(&self, at: Ref) -> Option<Ref>
        requires { at < length self.now }
        ensures { result ≡ (if nat_lt (at + 1) (length self.now) then Some (at + 1) else None) }
    {
        let next = at.index() + 1;
        if next < self.heads.len() {
            Some(Ref::new(next as u32))
        } else {
            None
        }
    }

    /// How many literals a clause has.
    pub fn len_of(&self, at: Ref) -> usize
        requires { at < length self.now }
        ensures { result ≡ length (record_at self.now at).lits }
    {
        self.heads[at.index()].len as usize
    }

    /// The id that a clause was put with.
    pub fn id_of(&self, at: Ref) -> u64
        requires { at < length self.now }
        ensures { result ≡ (record_at self.now at).id }
    {
        self.heads[at.index()].id
    }

    /// A literal's code, by its place in the clause.
    pub fn lit_at(&self, at: Ref, place: usize) -> u32
        requires of_the_list { at < length self.now }
        requires in_range { place < length (record_at self.now at).lits }
        ensures { result ≡ slice_index (record_at self.now at).lits place }
    {
        self.codes[self.heads[at.index()].start + place]
    }

    /// Whether a clause is live: it was not forgotten.
    pub fn is_live(&self, at: Ref) -> bool
        requires { at < length self.now }
        ensures { result ≡ (record_at self.now at).live }
    {
        self.heads[at.index()].live
    }

    /// A link of a clause, by its slot; none where it was last set to none, or never.
    pub fn link(&self, at: Ref, slot: u8) -> Option<Link>
        requires of_the_list { at < length self.now }
        requires slot { slot < 2 }
        ensures { result ≡ link_of (record_at self.now at) slot }
    {
        let head = &self.heads[at.index()];
        if slot == 0 { head.link_0 } else { head.link_1 }
    }

    /// Sets a link of a clause.
    pub fn set_link(&mut self, at: Ref, slot: u8, to: Option<Link>)
        requires of_the_list { at < length self.old }
        requires slot { slot < 2 }
        ensures { self.new ≡ slice_set self.old at (with_link (record_at self.old at) slot to) }
    {
        let head = &mut self.heads[at.index()];
        *head = head.linked(slot, to);
    }

    /// Exchanges two literals of a clause, by their places.
    pub fn swap_lits(&mut self, at: Ref, a: usize, b: usize)
        requires of_the_list { at < length self.old }
        requires first_in_range { a < length (record_at self.old at).lits }
        requires second_in_range { b < length (record_at self.old at).lits }
        ensures { self.new ≡ slice_set self.old at (with_lits_swapped (record_at self.old at) a b) }
    {
        let start = self.heads[at.index()].start;
        self.codes.swap(start + a, start + b);
    }

    /// Makes a clause not live. Its literals and links stay.
    pub fn forget(&mut self, at: Ref)
        requires { at < length self.old }
        ensures { self.new ≡ slice_set self.old at (forgotten (record_at self.old at)) }
    {
        self.heads[at.index()].live = false;
    }

    /// Drops the clauses that are not live and keeps the others in their order, under new Refs and with no links.
    ///
    /// It works in place and takes no memory: `moves`, which tells where each clause went, was made ready by `Moves::reserve`.
    pub fn compact(&mut self, moves: &mut Moves)
        requires room { length self.old ≤ moves.old.spare }
        requires no_pairs { moves.old.pairs ≡ [] }
        ensures kept { self.new ≡ compacted self.old }
        ensures moved { (at : ℕ) → new_ref moves.new.pairs at ≡ place_after self.old at }
        ensures leads { AreMoves moves.new.pairs self.old self.new }
        ensures spare { moves.new.spare ≡ moves.old.spare }
    {
        let packed = pack(&mut self.heads, &mut self.codes, &mut moves.table);
        self.heads.truncate(packed.heads);
        self.codes.truncate(packed.codes);
    }
}
