//! The compaction itself: live clauses move to the front.
ghost use Rattle.std.specs.Prelude.{◌≡◌, ℕ, ◌+◌, ◌^◌, ◌<◌, ◌≤◌, length, slice_index_or, None};
ghost use Rattle.clause_arena.specs.declared.arena.Head.{Head};
ghost use Rattle.clause_arena.specs.Layout.{AreInOrder, MovesDown, Packs};

use crate::arena::Head;
use crate::place::Ref;

// How many heads and how many codes are left.
#[derive(Drop)]
pub(crate) struct Packed {
    pub(crate) heads: usize,
    pub(crate) codes: usize,
}

// Moves one head to the place `kept` and its codes to `end`, and answers where they end now.
fn move_down(heads: &mut [Head], codes: &mut [u32], at: usize, kept: usize, end: usize) -> usize
    requires at { at < length heads.old }
    requires kept { kept ≤ at }
    requires down { (d : Head) → end ≤ (slice_index_or heads.old at d).start }
    requires within { (d : Head) → (slice_index_or heads.old at d).start + (slice_index_or heads.old at d).len ≤ length codes.old }
    ensures { (d : Head) → MovesDown heads.old codes.old (slice_index_or heads.old at d) kept end heads.new codes.new result }
{
    let head = heads[at];
    let next = head.start + head.len as usize;
    codes.copy_within(head.start..next, end);
    heads[kept] = Head {
        start: end,
        link_0: None,
        link_1: None,
        ..head
    };
    end + head.len as usize
}

// Moves the live heads and their codes to the front, and enters in the table where each went.
pub(crate) fn pack(heads: &mut [Head], codes: &mut [u32], table: &mut [Option<Ref>]) -> Packed
    requires order { AreInOrder 0 heads.old (length codes.old) }
    requires few { length heads.old ≤ 2 ^ 32 }
    requires room { length heads.old ≤ length table.old }
    requires empty { (at : ℕ) → slice_index_or table.old at None ≡ None }
    ensures { Packs heads.old codes.old heads.new codes.new table.new result.heads result.codes }
{
    let mut kept = 0;
    let mut end = 0;
    for at in 0..heads.len() {
        let live = heads[at].live;
        if live {
            end = move_down(heads, codes, at, kept, end);
            table[at] = Some(Ref::new(kept as u32));
            kept += 1;
        }
    }
    Packed {
        heads: kept,
        codes: end,
    }
}
