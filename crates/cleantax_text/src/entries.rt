//! What an entry says, by what the lines before it have given.
ghost use Rattle.std.specs.Prelude.{◌≡◌, ◌≢◌, ◌==◌, length, Err, IfOk, IfErr};
ghost use Rattle.cleantax_text.specs.declared.TextKind.TheVariants.{NoMemory};
ghost use Rattle.cleantax_text.specs.Reading.{pair_of, with_articulation, after_pair, after_sum};
ghost use Rattle.text_words.specs.Views.{words_meant, reference_meant, references_meant};
ghost use Rattle.cleantax_text.specs.Entries.{after_related, after_summed};
ghost use Rattle.cleantax_text.specs.Kept.{meant, IsKept};

use crate::TextKind;
use crate::naming::{are_different, is_taxonomy_among};
use crate::reader::Reader;
use rcc5_core::RelSet;
use text_words::{Reference, is_same, reference_of, references_of, set_of_words};
use world_model::{Articulation, Parts};

impl Reader {
    /// The articulation of an entry on two concepts.
    pub(crate) fn read_pair(
        &self,
        left: &[u8],
        relation: &[&[u8]],
        right: &[u8],
    ) -> Result<Articulation, TextKind>
        requires { IsKept (meant self.now) }
        ensures ok { IfOk result (λ a. after_pair (meant self.now) left.now (words_meant relation.now) right.now ≡ with_articulation (meant self.now) a) }
        ensures fault { IfErr result (λ k. after_pair (meant self.now) left.now (words_meant relation.now) right.now ≡ Err k) }
    {
        if !self.is_in_articulations() {
            return Err(TextKind::ArticulationOutside);
        }
        let Some(a) = reference_of(left) else {
            return Err(TextKind::BadName);
        };
        let Some(b) = reference_of(right) else {
            return Err(TextKind::BadName);
        };
        if has_no_word(relation) {
            return Err(TextKind::EmptyBraces);
        }
        let Some(set) = set_of_words(relation) else {
            return Err(TextKind::UnknownRelation);
        };
        self.relate(a, b, set)
    }

    // The articulation of the two concepts that these references are to.
    fn relate(
        &self,
        a: Reference<'_>,
        b: Reference<'_>,
        set: RelSet,
    ) -> Result<Articulation, TextKind>
        requires { IsKept (meant self.now) }
        ensures ok { IfOk result (λ x. after_related (meant self.now) (reference_meant a.entry) (reference_meant b.entry) set ≡ with_articulation (meant self.now) x) }
        ensures fault { IfErr result (λ k. after_related (meant self.now) (reference_meant a.entry) (reference_meant b.entry) set ≡ Err k) }
    {
        let Some(i) = self.concept_number(a) else {
            return Err(TextKind::UnknownConcept);
        };
        let Some(j) = self.concept_number(b) else {
            return Err(TextKind::UnknownConcept);
        };
        if is_same(a.taxonomy, b.taxonomy) {
            return Err(TextKind::SameTaxonomy);
        }
        Ok(pair_of(i, j, set))
    }

    /// The articulation of an entry on a sum.
    pub(crate) fn read_sum(&self, whole: &[u8], parts: &[&[u8]]) -> Result<Articulation, TextKind>
        requires { IsKept (meant self.now) }
        ensures ok { IfOk result (λ a. after_sum (meant self.now) whole.now (words_meant parts.now) ≡ with_articulation (meant self.now) a) }
        ensures fault { IfErr result (λ k. k ≢ NoMemory → after_sum (meant self.now) whole.now (words_meant parts.now) ≡ Err k) }
    {
        if !self.is_in_articulations() {
            return Err(TextKind::ArticulationOutside);
        }
        let Some(a) = reference_of(whole) else {
            return Err(TextKind::BadName);
        };
        let Some(bs) = references_of(self.alloc, parts)? else {
            return Err(TextKind::BadName);
        };
        self.add_up(a, bs.as_slice())
    }

    // The articulation of a whole and its parts, which are the concepts that these references are to.
    fn add_up(
        &self,
        whole: Reference<'_>,
        parts: &[Reference<'_>],
    ) -> Result<Articulation, TextKind>
        requires { IsKept (meant self.now) }
        ensures ok { IfOk result (λ x. after_summed (meant self.now) (reference_meant whole.entry) (references_meant parts.now) ≡ with_articulation (meant self.now) x) }
        ensures fault { IfErr result (λ k. k ≢ NoMemory → after_summed (meant self.now) (reference_meant whole.entry) (references_meant parts.now) ≡ Err k) }
    {
        let Some(i) = self.concept_number(whole) else {
            return Err(TextKind::UnknownConcept);
        };
        let Some(js) = self.concept_numbers(parts)? else {
            return Err(TextKind::UnknownConcept);
        };
        if is_taxonomy_among(whole.taxonomy, parts) {
            return Err(TextKind::SameTaxonomy);
        }
        if !are_different(self.alloc, js.as_slice())? {
            return Err(TextKind::PartTwice);
        }
        Ok(Articulation::Sum {
            whole: i,
            parts: Parts::new(js),
        })
    }
}

fn has_no_word(relation: &[&[u8]]) -> bool
    ensures { result ≡ (length (words_meant relation.now) == 0) }
{
    relation.is_empty()
}

// The articulation of two concepts, turned round where the left one has the greater number.
fn pair_of(i: u32, j: u32, set: RelSet) -> Articulation
    ensures { result ≡ pair_of i j set }
{
    if i < j {
        Articulation::Pair {
            left: i,
            right: j,
            set,
        }
    } else {
        Articulation::Pair {
            left: j,
            right: i,
            set: set.converse(),
        }
    }
}
