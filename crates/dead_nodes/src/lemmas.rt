//! Clauses that were derived, and what showed them: one that was forgotten can be shown again.
//!
//! All of it is a hint: whether clauses show another one is tested by the asker.
ghost use Rattle.std.specs.Prelude.{◌≡◌, IfOk};
ghost use Rattle.point_query.specs.Asking.{AskerGoes};

use lits_core::{Line, Lit};
use point_query::Asker;
use std::alloc::{AllocError, Global};

/// So many clauses are kept. Where one more comes, all are let go.
const MOST_LEMMAS: usize = 131_072;

/// So many of their ids are kept, old ones too. Where one more comes, all clauses are let go.
const MOST_IDS: usize = 524_288;

/// So many clauses are shown anew at most for one.
const MOST_STEPS: usize = 32;

/// One of the clauses that show another: one that is kept, by its place, or another by its id.
#[derive(Clone, Copy)]
pub(crate) enum Hint {
    Lemma(usize),
    Clause(u64),
}

/// A derived clause: the id that it had last, its literals, and what shows it.
#[derive(Drop)]
struct Lemma {
    id: u64,
    lits: Vec<Lit>,
    hints: Vec<Hint>,
}

/// Derived clauses. Those that show one stand before it.
#[derive(Drop)]
pub(crate) struct Lemmas {
    list: Vec<Lemma>,
    // The ids that they have and had, ascending, and the place of each one's clause.
    ids: Vec<u64>,
    places: Vec<usize>,
    alloc: Global,
}

impl Lemmas {
    // No clauses.
    pub(crate) fn new(alloc: Global) -> Lemmas {
        Lemmas {
            list: Vec::new(alloc),
            ids: Vec::new(alloc),
            places: Vec::new(alloc),
            alloc,
        }
    }

    // A clause by its id, as a hint.
    pub(crate) fn hint(&self, id: u64) -> Hint {
        match self.place_of(id) {
            Some(place) => Hint::Lemma(place),
            None => Hint::Clause(id),
        }
    }

    // The id that a clause had last.
    pub(crate) fn id_of(&self, hint: Hint) -> Option<u64> {
        match hint {
            Hint::Lemma(place) => Some(self.list.get(place)?.id),
            Hint::Clause(id) => Some(id),
        }
    }

    // The literals of a clause that is kept.
    pub(crate) fn lits(&self, place: usize) -> &[Lit] {
        match self.list.get(place) {
            Some(lemma) => lemma.lits.as_slice(),
            None => &[],
        }
    }

    // The place of the clause that has or had an id.
    fn place_of(&self, id: u64) -> Option<usize> {
        match self.ids.binary_search(&id) {
            Ok(number) => self.places.get(number).copied(),
            Err(_) => None,
        }
    }

    // Keeps the clauses whose lines wait in an asker. Ids ascend, so those up to the last one are known.
    pub(crate) fn note(&mut self, asker: &Asker) -> Result<(), AllocError> {
        for line in asker.lines() {
            if let Line::Derive { id, lits, hints } = line {
                if self.is_new(*id) {
                    self.add(*id, lits.lits(), hints.list())?;
                }
            }
        }
        Ok(())
    }

    // Whether an id comes behind all that are known.
    fn is_new(&self, id: u64) -> bool {
        match self.ids.last() {
            Some(last) => *last < id,
            None => true,
        }
    }

    // Keeps a clause.
    fn add(&mut self, id: u64, lits: &[Lit], hints: &[u64]) -> Result<(), AllocError> {
        self.make_room();
        let mut kept = Vec::with_capacity(self.alloc, hints.len())?;
        for hint in hints {
            kept.push(self.hint(*hint))?;
        }
        let lits = Vec::from_slice(self.alloc, lits)?;
        let place = self.list.len();
        self.list.push(Lemma {
            id,
            lits,
            hints: kept,
        })?;
        self.name(id, place)
    }

    // Lets all go where they are too many.
    fn make_room(&mut self) {
        if self.list.len() >= MOST_LEMMAS || self.ids.len() >= MOST_IDS {
            self.list.clear();
            self.ids.clear();
            self.places.clear();
        }
    }

    // The clause at a place has an id from now on.
    fn name(&mut self, id: u64, place: usize) -> Result<(), AllocError> {
        if let Some(lemma) = self.list.get_mut(place) {
            lemma.id = id;
        }
        self.places.push(place)?;
        self.ids.push(id)?;
        Ok(())
    }

    // The id of the clause at a place, which is shown anew where it was forgotten, and before it those that show it.
    #[tactic(auto, using(search_log::proofs::Logs::asker_stays, search_log::proofs::Logs::asker_joins))]
    pub(crate) fn show(
        &mut self,
        asker: &mut Asker,
        place: usize,
    ) -> Result<Option<u64>, AllocError>
        ensures kept { AskerGoes asker.old asker.new }
    {
        let needed = self.needed(asker, place)?;
        let mut shown = None;
        for one in &needed {
            shown = self.show_one(asker, *one)?;
            if shown.is_none() {
                return Ok(None);
            }
        }
        Ok(shown)
    }

    // The id of the clause at a place, which is shown anew where it was forgotten, by those that show it, if they are live.
    #[tactic(auto, using(search_log::proofs::Logs::asker_stays))]
    fn show_one(&mut self, asker: &mut Asker, place: usize) -> Result<Option<u64>, AllocError>
        ensures kept { AskerGoes asker.old asker.new }
    {
        let Some(lemma) = self.list.get(place) else {
            return Ok(None);
        };
        if asker.clause(lemma.id).is_some() {
            return Ok(Some(lemma.id));
        }
        let hints = self.hints_of(lemma)?;
        let shown = asker.derive(lemma.lits.as_slice(), &hints)?;
        if let Some(id) = shown {
            self.name(id, place)?;
        }
        Ok(shown)
    }

    // The ids of what shows a clause.
    fn hints_of(&self, lemma: &Lemma) -> Result<Vec<u64>, AllocError> {
        let mut ids = Vec::with_capacity(self.alloc, lemma.hints.len())?;
        for hint in &lemma.hints {
            if let Some(id) = self.id_of(*hint) {
                ids.push(id)?;
            }
        }
        Ok(ids)
    }

    // The place of a clause, and those of what shows it that were forgotten, ascending.
    fn needed(&self, asker: &Asker, place: usize) -> Result<Vec<usize>, AllocError> {
        let mut needed = Vec::with_capacity(self.alloc, 4)?;
        needed.push(place)?;
        for step in 0..MOST_STEPS {
            let Some(one) = needed.get(step).copied() else {
                break;
            };
            self.add_forgotten(asker, one, &mut needed)?;
        }
        needed.sort_unstable();
        Ok(needed)
    }

    // Adds the places of what shows a clause, as far as it was forgotten.
    fn add_forgotten(
        &self,
        asker: &Asker,
        place: usize,
        needed: &mut Vec<usize>,
    ) -> Result<(), AllocError> {
        let Some(lemma) = self.list.get(place) else {
            return Ok(());
        };
        for hint in &lemma.hints {
            if let Hint::Lemma(before) = hint {
                if self.is_forgotten(asker, *before) && !needed.contains(before) {
                    needed.push(*before)?;
                }
            }
        }
        Ok(())
    }

    // Whether the clause at a place is live no more.
    fn is_forgotten(&self, asker: &Asker, place: usize) -> bool {
        match self.list.get(place) {
            Some(lemma) => asker.clause(lemma.id).is_none(),
            None => false,
        }
    }
}
