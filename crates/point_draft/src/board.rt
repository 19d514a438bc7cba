//! Which concepts have a point and which have not, as far as it follows.
use crate::row::Row;
use crate::rules::Rules;
use std::alloc::{AllocError, Global};

/// Why a concept has the point, or has it not.
#[derive(Clone, Copy)]
pub(crate) enum Why {
    /// It is asked for.
    Asked,
    /// Since this one has it, or has it not.
    From(u32, bool),
    /// By the cover with a number.
    Cover(usize),
    /// By the clause that was drafted in the step with a number.
    Step(usize),
}

/// That a concept has the point, or has it not.
#[derive(Clone, Copy)]
pub(crate) struct Mark {
    pub(crate) concept: u32,
    pub(crate) value: bool,
    pub(crate) why: Why,
}

// How many concepts may have the point, and which, if one.
#[derive(Clone, Copy)]
enum Open {
    None,
    One(u32),
    Many,
}

/// The marks in the order in which they came, each concept at most once.
#[derive(Drop)]
pub(crate) struct Board {
    pub(crate) with: Row,
    pub(crate) without: Row,
    pub(crate) marks: Vec<Mark>,
    // So many of the marks were looked at.
    seen: usize,
}

impl Board {
    // Without marks, for so many concepts.
    pub(crate) fn new(alloc: Global, count: usize) -> Result<Board, AllocError> {
        Ok(Board {
            with: Row::new(alloc, count)?,
            without: Row::new(alloc, count)?,
            marks: Vec::new(alloc),
            seen: 0,
        })
    }

    // Takes all marks away.
    pub(crate) fn clear(&mut self) {
        self.with.clear();
        self.without.clear();
        self.marks.clear();
        self.seen = 0;
    }

    // Takes away all marks but the first ones, which were looked at.
    pub(crate) fn back_to(&mut self, count: usize) {
        for _mark in count..self.marks.len() {
            if let Some(mark) = self.marks.pop() {
                if mark.value {
                    self.with.unset(mark.concept as usize);
                } else {
                    self.without.unset(mark.concept as usize);
                }
            }
        }
        self.seen = count;
    }

    // Adds a mark, unless it is there. Answers it where the opposite is there.
    pub(crate) fn put(&mut self, mark: Mark) -> Result<Option<Mark>, AllocError> {
        let concept = mark.concept;
        if mark.value && self.without.has(concept) || !mark.value && self.with.has(concept) {
            return Ok(Some(mark));
        }
        if mark.value && self.with.has(concept) || !mark.value && self.without.has(concept) {
            return Ok(None);
        }
        self.marks.push(mark)?;
        if mark.value {
            self.with.set(concept as usize);
        } else {
            self.without.set(concept as usize);
        }
        Ok(None)
    }

    // The word of the concepts that are marked with a value.
    fn word(&self, value: bool, at: usize) -> u64 {
        if value {
            self.with.word(at)
        } else {
            self.without.word(at)
        }
    }

    // Marks each concept of a row with a value. Answers the first mark the opposite of which is there.
    fn spread(&mut self, row: &[u64], value: bool, why: Why) -> Result<Option<Mark>, AllocError> {
        let mut first: u32 = 0;
        for (at, word) in row.iter().enumerate() {
            let mut open = *word & !self.word(value, at);
            for _bit in 0..64 {
                if open == 0 {
                    break;
                }
                let bit = open.trailing_zeros();
                open &= open.wrapping_sub(1);
                let concept = first.saturating_add(bit);
                let clash = self.put(Mark {
                    concept,
                    value,
                    why,
                })?;
                if clash.is_some() {
                    return Ok(clash);
                }
            }
            first = first.saturating_add(64);
        }
        Ok(None)
    }

    // What follows of other concepts from a mark.
    fn follow(&mut self, rules: &Rules, mark: Mark) -> Result<Option<Mark>, AllocError> {
        let at = mark.concept as usize;
        let why = Why::From(mark.concept, mark.value);
        if !mark.value {
            return match rules.below.get(at) {
                Some(row) => self.spread(row.words(), false, why),
                None => Ok(None),
            };
        }
        if let Some(row) = rules.above.get(at) {
            let clash = self.spread(row.words(), true, why)?;
            if clash.is_some() {
                return Ok(clash);
            }
        }
        match rules.apart.get(at) {
            Some(row) => self.spread(row.words(), false, why),
            None => Ok(None),
        }
    }

    // What follows by a cover.
    fn follow_cover(&mut self, rules: &Rules, number: usize) -> Result<Option<Mark>, AllocError> {
        let Some(cover) = rules.covers.get(number) else {
            return Ok(None);
        };
        let why = Why::Cover(number);
        match self.open_parts(cover.row.words()) {
            Open::None => self.put(Mark {
                concept: cover.head,
                value: false,
                why,
            }),
            Open::One(concept) if self.with.has(cover.head) => self.put(Mark {
                concept,
                value: true,
                why,
            }),
            _ => Ok(None),
        }
    }

    // Which concepts of a row may have the point.
    fn open_parts(&self, row: &[u64]) -> Open {
        let mut found = Open::None;
        let mut first: u32 = 0;
        for (at, word) in row.iter().enumerate() {
            let open = *word & !self.without.word(at);
            if open != 0 {
                match found {
                    Open::None if open & open.wrapping_sub(1) == 0 => {
                        found = Open::One(first.saturating_add(open.trailing_zeros()));
                    }
                    _ => return Open::Many,
                }
            }
            first = first.saturating_add(64);
        }
        found
    }

    // What follows by the covers of a concept.
    fn follow_covers(&mut self, rules: &Rules, concept: u32) -> Result<Option<Mark>, AllocError> {
        if let Some(numbers) = rules.covers_of.get(concept as usize) {
            for number in &numbers.list {
                let clash = self.follow_cover(rules, *number)?;
                if clash.is_some() {
                    return Ok(clash);
                }
            }
        }
        Ok(None)
    }

    // Marks all that follows. Answers the first mark the opposite of which is there.
    pub(crate) fn close(&mut self, rules: &Rules) -> Result<Option<Mark>, AllocError> {
        for _turn in 0..u32::MAX {
            let Some(mark) = self.marks.get(self.seen).copied() else {
                return Ok(None);
            };
            self.seen = self.seen.saturating_add(1);
            let clash = self.follow(rules, mark)?;
            if clash.is_some() {
                return Ok(clash);
            }
            let clash = self.follow_covers(rules, mark.concept)?;
            if clash.is_some() {
                return Ok(clash);
            }
        }
        Ok(None)
    }
}
