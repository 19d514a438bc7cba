//! What one more relation strikes out, and the needs that it adds.
ghost use Rattle.point_encode.specs.Model.Forced.{need_count};
ghost use Rattle.bit_rows.specs.Rows.{has_bit};
ghost use Rattle.point_table.specs.Places.Places.{IsStruck};
ghost use Rattle.point_pool.specs.Pools.{AllAvoid, CellAvoids, IsFewer, IsPool, IsPoolBut, IsStriking, StrikesOut};
ghost use Rattle.std.specs.Prelude.{OnOk, length, true, ◌*◌, ◌+◌, ◌<◌, ◌≡◌};
ghost use Rattle.world_model.specs.Node.{pair_at};
ghost use Rattle.world_model.specs.Problem.{concept_count, pair_count};

use crate::pool::Pool;
use point_encode::count_pairs;
use point_table::avoids_by;
use rcc5_core::Regions;
use std::alloc::AllocError;
use world_model::positions_narrow;

impl Pool {
    // Strikes out the points in the regions of the next pair that are forced empty. The needs that they served wait.
    pub(crate) fn strike(&mut self, pair: u32, regions: Regions) -> Result<(), AllocError>
        requires pool { IsPool self.old }
        requires pair { pair ≡ length self.old.cursor.path }
        requires within { pair < pair_count self.old.cursor.problem }
        ensures striking { OnOk result (IsStriking self.new) }
        ensures avoid { OnOk result (AllAvoid self.new.places (pair_at self.old.cursor.problem pair) regions) }
        ensures cursor { OnOk result (self.new.cursor ≡ self.old.cursor) }
    {
        self.marks.push(self.struck.len())?;
        let (x, y) = self.cursor.problem().pair_at(pair);
        self.strike_cell(regions, (x, true), (y, true))?;
        self.strike_cell(regions, (x, true), (y, false))?;
        self.strike_cell(regions, (x, false), (y, true))?;
        Ok(())
    }

    // Strikes out the points that two concepts have or lack, as is said, if they lie in a region that is forced empty.
    fn strike_cell(
        &mut self,
        regions: Regions,
        one: (u32, bool),
        other: (u32, bool),
    ) -> Result<(), AllocError>
        requires striking { IsStriking self.old }
        requires one { one.0 < concept_count self.old.cursor.problem }
        requires other { other.0 < concept_count self.old.cursor.problem }
        ensures striking { OnOk result (IsStriking self.new) }
        ensures fewer { OnOk result (IsFewer self.old.places self.new.places) }
        ensures avoid { OnOk result (CellAvoids self.new.places regions one other) }
        ensures cursor { OnOk result (self.new.cursor ≡ self.old.cursor) }
    {
        if avoids_by(regions, one.1, other.1) {
            return Ok(());
        }
        self.places.facts();
        let mut from = 0;
        while let Some(place) = self.places.next_met(from / 64, one, other) {
            self.strike_out(place)?;
            from = place + 1;
        }
        Ok(())
    }

    // Strikes out a live point. The needs that it served wait.
    fn strike_out(&mut self, place: usize) -> Result<(), AllocError>
        requires striking { IsStriking self.old }
        requires there { place < length self.old.places.points }
        requires live { has_bit self.old.places.live place ≡ true }
        ensures striking { OnOk result (IsStriking self.new) }
        ensures places { OnOk result (IsStruck self.old.places self.new.places place) }
        ensures cursor { OnOk result (self.new.cursor ≡ self.old.cursor) }
    {
        positions_narrow();
        self.cursor.facts();
        self.take_away(place)?;
        Ok(())
    }

    // Takes a point out of those that are live.
    fn take_away(&mut self, place: usize) -> Result<(), AllocError>
        requires within { place < length self.old.places.points }
        requires serves { length self.old.serves.items ≡ length self.old.places.points }
        ensures out { OnOk result (StrikesOut self.old self.new place) }
    {
        self.places.strike(place);
        self.struck.push(place)?;
        self.serves[place].release(&mut self.waiting)?;
        Ok(())
    }

    // Adds the needs of a pair to those that wait, unless a point is known to serve them.
    pub(crate) fn want_pair(&mut self, pair: u32) -> Result<(), AllocError>
        requires pool { IsPoolBut self.old (3 * pair) (3 * pair + 3) }
        requires within { pair < pair_count self.old.cursor.problem }
        ensures pool { OnOk result (IsPool self.new) }
        ensures cursor { OnOk result (self.new.cursor ≡ self.old.cursor) }
    {
        self.cursor.problem().facts();
        for number in 3 * pair..3 * pair + 3 {
            self.want(number, 3 * pair + 3)?;
        }
        Ok(())
    }

    // Adds a need to those that wait, unless it is none or a point is known to serve it.
    fn want(&mut self, number: u32, high: u32) -> Result<(), AllocError>
        requires pool { IsPoolBut self.old number high }
        requires within { number < need_count self.old.cursor.problem }
        ensures pool { OnOk result (IsPoolBut self.new (number + 1) high) }
        ensures cursor { OnOk result (self.new.cursor ≡ self.old.cursor) }
    {
        if !self.cursor.is_needed(number) {
            return Ok(());
        }
        if self.is_served(number) {
            return Ok(());
        }
        self.waiting.push(number)?;
        Ok(())
    }
}
