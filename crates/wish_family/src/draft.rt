//! A draft of a family: the points that are left, and what has to have one.
ghost use Rattle.std.specs.Prelude.{◌<◌};
ghost use Rattle.world_model.specs.Problem.{pair_count};

use crate::sites::{REGIONS, Site, place_without, put_empty, sides_of, take_out};
use crate::table::Table;
use bit_rows::{Sides, has_bit, with_bit};
use constraint_set::Problem;
use rcc5_core::{Occupancy, Region, Regions, Rel};
use set_family::Family;
use std::alloc::{AllocError, Global};

// A region that has to have a point, and one that it has.
#[derive(Clone, Copy)]
struct Need {
    site: Site,
    witness: usize,
}

/// Points that are left, and regions that have to have one. A relation is granted by leaving out the points that it bars.
#[derive(Drop)]
pub(crate) struct Draft {
    left: Vec<u64>,
    // The points that a relation bars which is tried.
    barred: Vec<u64>,
    needs: Vec<Need>,
}

// A row with the first places.
fn full_row(alloc: Global, width: usize, count: usize) -> Result<Vec<u64>, AllocError> {
    let mut row = Vec::with_capacity(alloc, width)?;
    for i in 0..width {
        let from = i.saturating_mul(64);
        row.push(first_bits(count.saturating_sub(from)))?;
    }
    Ok(row)
}

// A word with the first bits.
fn first_bits(count: usize) -> u64 {
    if count < 64 {
        (1 << count) - 1
    } else {
        u64::MAX
    }
}

// A row without places.
fn empty_row(alloc: Global, width: usize) -> Result<Vec<u64>, AllocError> {
    let mut row = Vec::with_capacity(alloc, width)?;
    for _i in 0..width {
        row.push(0)?;
    }
    Ok(row)
}

// Adds a place to a row, if it has room there.
fn put_bit(row: &mut [u64], place: usize) {
    let i = place / 64;
    if i < row.len() {
        row[i] = with_bit(row[i], place % 64);
    }
}

impl Draft {
    // All points are left.
    fn full(alloc: Global, table: &Table) -> Result<Draft, AllocError> {
        let width = table.rows.width();
        Ok(Draft {
            left: full_row(alloc, width, table.count)?,
            barred: empty_row(alloc, width)?,
            needs: Vec::new(alloc),
        })
    }

    /// What is left where the pairs whose sets are not whole have the relations of a family; none if a need has no point there,
    /// which doesn't happen where the family meets the problem.
    pub(crate) fn new(
        alloc: Global,
        problem: &Problem,
        table: &Table,
        family: &Family,
    ) -> Result<Option<Draft>, AllocError> {
        let mut draft = Draft::full(alloc, table)?;
        for pair in &table.splits {
            draft.bar(problem, table, family, *pair);
        }
        for site in &table.needs {
            if !draft.add_need(table, *site)? {
                return Ok(None);
            }
        }
        for pair in &table.splits {
            if !draft.hold(problem, table, family, *pair)? {
                return Ok(None);
            }
        }
        Ok(Some(draft))
    }

    // Leaves out what the relation of a family bars at a pair.
    fn bar(&mut self, problem: &Problem, table: &Table, family: &Family, pair: u32) {
        if pair < problem.pair_count() {
            let (left, right) = problem.pair_at(pair);
            if left < family.count() && right < family.count() {
                let words = family.relation(left, right).row();
                let sides = sides_of(&table.rows, left, right);
                put_empty(&mut self.barred, &sides, words, &self.left);
                take_out(&mut self.left, &self.barred);
            }
        }
    }

    // Holds on to what the relation of a family needs at a pair.
    fn hold(
        &mut self,
        problem: &Problem,
        table: &Table,
        family: &Family,
        pair: u32,
    ) -> Result<bool, AllocError> {
        if pair < problem.pair_count() {
            let (left, right) = problem.pair_at(pair);
            if left < family.count() && right < family.count() {
                let words = family.relation(left, right).row();
                return self.add_needs(table, left, right, words);
            }
        }
        Ok(true)
    }

    // Adds a need, if a point is left in it.
    fn add_need(&mut self, table: &Table, site: Site) -> Result<bool, AllocError> {
        let sides = sides_of(&table.rows, site.left, site.right);
        match place_without(&sides, site.region, &self.left, &[]) {
            Some(witness) => {
                self.needs.push(Need { site, witness })?;
                Ok(true)
            }
            None => Ok(false),
        }
    }

    // Adds the regions of two concepts that words say are occupied.
    fn add_needs(
        &mut self,
        table: &Table,
        left: u32,
        right: u32,
        words: Regions,
    ) -> Result<bool, AllocError> {
        for region in REGIONS {
            if words.at(region) == Occupancy::Occupied {
                let site = Site {
                    left,
                    right,
                    region,
                };
                if !self.add_need(table, site)? {
                    return Ok(false);
                }
            }
        }
        Ok(true)
    }

    // Whether a point is left in each region that words say is occupied.
    fn can_have(&self, sides: &Sides, words: Regions) -> bool {
        for region in REGIONS {
            if words.at(region) == Occupancy::Occupied
                && place_without(sides, region, &self.left, &[]).is_none()
            {
                return false;
            }
        }
        true
    }

    // Whether each need has a point that isn't barred. Where its point is barred it gets another.
    fn renew(&mut self, table: &Table) -> bool {
        for n in 0..self.needs.len() {
            let need = self.needs[n];
            if has_bit(&self.barred, need.witness) {
                let sides = sides_of(&table.rows, need.site.left, need.site.right);
                match place_without(&sides, need.site.region, &self.left, &self.barred) {
                    Some(witness) => self.needs[n].witness = witness,
                    None => return false,
                }
            }
        }
        true
    }

    /// Grants that two concepts have a relation, if that can be besides what was granted.
    pub(crate) fn grant(
        &mut self,
        table: &Table,
        left: u32,
        right: u32,
        rel: Rel,
    ) -> Result<bool, AllocError> {
        let words = rel.row();
        let sides = sides_of(&table.rows, left, right);
        if !self.can_have(&sides, words) {
            return Ok(false);
        }
        if put_empty(&mut self.barred, &sides, words, &self.left) {
            if !self.renew(table) {
                return Ok(false);
            }
            take_out(&mut self.left, &self.barred);
        }
        self.add_needs(table, left, right, words)
    }

    // A point for each need, by their places.
    fn chosen(&self, alloc: Global) -> Result<Vec<u64>, AllocError> {
        let mut row = empty_row(alloc, self.left.len())?;
        for need in &self.needs {
            put_bit(&mut row, need.witness);
        }
        Ok(row)
    }

    /// The places of a point for each need.
    pub(crate) fn places(&self, alloc: Global, table: &Table) -> Result<Vec<usize>, AllocError> {
        let row = self.chosen(alloc)?;
        let mut places = Vec::new(alloc);
        for place in 0..table.count {
            if has_bit(&row, place) {
                places.push(place)?;
            }
        }
        Ok(places)
    }
}
