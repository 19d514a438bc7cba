//! Rules on the points of a problem, of two concepts or of a concept and some others, closed under implication.
ghost use Rattle.std.specs.Prelude.{◌≡◌, ◌+◌, ◌*◌, ◌<◌, ◌&&◌, Bool, true, false, List, [], ◌∷◌, ◌++◌, length, IfOk};
ghost use Rattle.world_model.specs.Problem.{Problem};
ghost use Rattle.bit_rows.specs.Rows.{has_bit};
ghost use Rattle.point_table.specs.Growing.{NoneBegins, IsTried, FitConcepts, AreRules};

use bit_rows::{Rows, has_bit, have_common, is_inside};
use std::alloc::{AllocError, Global};

// What follows from a concept's bit, and what does not go with it; and heads that need one of a row, by the last concept in it.
pub(crate) struct Rules {
    pub(crate) implied: Rows,
    pub(crate) excluded: Rows,
    pub(crate) heads: Vec<usize>,
    pub(crate) covers: Rows,
    pub(crate) last: Vec<Vec<usize>>,
}

// Written out, so that letting one go is a call.
impl Drop for Rules {
    fn drop(self) {
        let Rules {
            implied: _,
            excluded: _,
            heads: _,
            covers: _,
            last: _,
        } = self;
    }
}

impl Rules {
    // Whether a bit for the next concept may begin a point, as far as is known of those before it.
    pub(crate) fn may_add(&self, known: &Rows, concept: usize, bit: bool) -> bool
        requires two { known.now.count ≡ 2 }
        requires implied { concept < self.now.implied.count }
        requires excluded { concept < self.now.excluded.count }
        ensures { result ≡ false → (p : Problem) (begin : List Bool) → AreRules p self.now → IsTried p begin known.now → length begin ≡ concept → NoneBegins p (begin ++ bit ∷ []) }
    {
        let yes = known.row(0);
        let none = known.row(1);
        if !bit {
            return !has_bit(yes, concept);
        }
        if has_bit(none, concept) {
            return false;
        }
        if have_common(self.implied.row(concept), none) {
            return false;
        }
        !have_common(self.excluded.row(concept), yes)
    }

    // What is known with the next concept's bit.
    pub(crate) fn next_known(
        &self,
        alloc: Global,
        known: &Rows,
        concept: usize,
        bit: bool,
    ) -> Result<Rows, AllocError>
        requires two { known.now.count ≡ 2 }
        requires implied { concept < self.now.implied.count }
        requires excluded { concept < self.now.excluded.count }
        requires some { 0 < known.now.width }
        requires width { self.now.implied.width ≡ known.now.width }
        requires other_width { self.now.excluded.width ≡ known.now.width }
        requires within { concept < 64 * known.now.width }
        ensures width { IfOk result (λ next. next.width ≡ known.now.width) }
        ensures tried { IfOk result (λ next. (p : Problem) (begin : List Bool) → AreRules p self.now → IsTried p begin known.now → length begin ≡ concept → IsTried p (begin ++ bit ∷ []) next) }
    {
        let mut next = Rows::new(alloc, known.width());
        let yes = known.row(0);
        next.push_copy(yes)?;
        let none = known.row(1);
        next.push_copy(none)?;
        if bit {
            next.join(0, self.implied.row(concept));
            next.join(1, self.excluded.row(concept));
        } else {
            next.set(1, concept);
        }
        Ok(next)
    }

    // Whether each head whose row ends with a concept may have one of its row.
    pub(crate) fn covers_may_hold(&self, known: &Rows, concept: usize) -> bool
        requires two { known.now.count ≡ 2 }
        requires fit { FitConcepts self.now.implied.count self.now }
        ensures { result ≡ false → (p : Problem) (begin : List Bool) → AreRules p self.now → IsTried p begin known.now → NoneBegins p begin }
    {
        let Some(numbers) = self.last.get(concept) else {
            return true;
        };
        let yes = known.row(0);
        let none = known.row(1);
        for number in numbers {
            if let Some(head) = self.heads.get(*number) {
                if has_bit(yes, *head) && is_inside(self.covers.row(*number), none) {
                    return false;
                }
            }
        }
        true
    }
}
