//! Needs without a point, and pairs without a relation.

ghost use Rattle.std.specs.Prelude.{◌≡◌, ◌<◌, ◌≤◌, ◌*◌, ◌/◌, ◌%◌, ◌||◌, ◌&&◌, not, length, option_map, Option, List, Some, None, option_copied, ℕ};
ghost use Rattle.rcc5_core.specs.declared.Occupancy.TheVariants.{Empty, Occupied};
ghost use Rattle.rcc5_core.specs.Region.{word_at, same_word, forced_regions};
ghost use Rattle.std.specs.List.{list_all};
ghost use Rattle.lits_core.specs.Literals.{negation_of};
ghost use Rattle.lits_core.specs.Derivation.{has_lit};
ghost use Rattle.world_model.specs.Problem.{pair_count, concept_count};
ghost use Rattle.point_encode.specs.Model.Clauses.{first_sum_selector};
ghost use Rattle.point_encode.specs.Model.Forced.{region_with, need_lits};
ghost use Rattle.point_encode.specs.Needs.{need_seen, IsInRange, lits_there};
ghost use Rattle.cert_rules.specs.Trees.{node_problem, is_forced, is_closed, clause_fault, need_fault, point_fault, pair_fault};
ghost use Rattle.cert_rules.specs.Selected.{is_emptied, is_sum_kept, is_selected, is_asked};

use crate::tree::Branching;
use cert_rules::{RejectKind, asked_by_literal};
use lits_core::Lit;
use point_encode::{Need, need_lits, need_of};
use proof_check::Book;
use rcc5_core::{Occupancy, Position, Region};

impl Branching {
    /// What is wrong with a need of a node that has no point by a clause, both by their numbers.
    pub(crate) fn point_fault(
        &self,
        path: &Position,
        book: &Book,
        need: u64,
        clause: u64,
    ) -> Option<RejectKind>
        requires { length path.now ≤ length self.now.levels }
        ensures { result ≡ point_fault (node_problem self.now path.now) book.now need clause }
    {
        match need_of(&self.subject, need) {
            Some(need) => self.need_fault(path, need, book.live(clause)),
            None => Some(RejectKind::NeedNotForced),
        }
    }

    fn need_fault(&self, path: &Position, need: Need, clause: Option<&[Lit]>) -> Option<RejectKind>
        requires path { length path.now ≤ length self.now.levels }
        requires range { IsInRange self.now.subject need }
        ensures { result ≡ need_fault (node_problem self.now path.now) (Some (need_seen self.now.subject need)) (option_copied clause.entry) }
    {
        if self.is_forced(path, need) {
            self.clause_fault(path, need, clause)
        } else {
            Some(RejectKind::NeedNotForced)
        }
    }

    /// Whether a node asks for a point in a need.
    fn is_forced(&self, path: &Position, need: Need) -> bool
        requires path { length path.now ≤ length self.now.levels }
        requires range { IsInRange self.now.subject need }
        ensures { result ≡ is_forced (node_problem self.now path.now) (need_seen self.now.subject need) }
    {
        match need {
            Need::Region { pair, part } => {
                let word = self.forced_at(path, pair).at(region_of(part));
                is_word(word, Occupancy::Occupied)
            }
            Need::Concept(_) => self.subject.switches().nonempty,
        }
    }

    fn clause_fault(
        &self,
        path: &Position,
        need: Need,
        clause: Option<&[Lit]>,
    ) -> Option<RejectKind>
        requires path { length path.now ≤ length self.now.levels }
        requires range { IsInRange self.now.subject need }
        ensures { result ≡ clause_fault (node_problem self.now path.now) (need_seen self.now.subject need) (option_copied clause.entry) }
    {
        match clause {
            None => Some(RejectKind::UnknownClause),
            Some(lits) if self.is_closed(path, need, lits) => None,
            Some(_) => Some(RejectKind::LiteralNotForced),
        }
    }

    /// Whether a clause leaves a need of a node no point.
    fn is_closed(&self, path: &Position, need: Need, lits: &[Lit]) -> bool
        requires path { length path.now ≤ length self.now.levels }
        requires range { IsInRange self.now.subject need }
        ensures { result ≡ is_closed (node_problem self.now path.now) (need_seen self.now.subject need) lits.now }
    {
        asked_by_literal();
        self.are_asked(path, need, lits)
    }

    /// Whether the negations of literals must be true where a point of a node is in a need.
    fn are_asked(&self, path: &Position, need: Need, lits: &[Lit]) -> bool
        requires path { length path.now ≤ length self.now.levels }
        requires range { IsInRange self.now.subject need }
        ensures { result ≡ list_all (λ lit. is_asked (node_problem self.now path.now) (need_seen self.now.subject need) (negation_of lit)) lits.now }
    {
        let asked = need_lits(&self.subject, need);
        let (first, second) = (asked[0], asked[1]);
        lits.iter()
            .all(|lit| self.is_denied(path, need, first, second, *lit))
    }

    /// Whether the negation of a literal must be true where a point of a node is in a need.
    fn is_denied(
        &self,
        path: &Position,
        need: Need,
        first: Option<Lit>,
        second: Option<Lit>,
        lit: Lit,
    ) -> bool
        requires path { length path.now ≤ length self.now.levels }
        requires lits { lits_there first second ≡ need_lits (need_seen self.now.subject need) }
        ensures { result ≡ is_asked (node_problem self.now path.now) (need_seen self.now.subject need) (negation_of lit) }
    {
        self.is_asked(path, need, first, second, lit.negate())
    }

    /// Whether a literal must be true where a point of a node is in a need.
    fn is_asked(
        &self,
        path: &Position,
        need: Need,
        first: Option<Lit>,
        second: Option<Lit>,
        lit: Lit,
    ) -> bool
        requires path { length path.now ≤ length self.now.levels }
        requires lits { lits_there first second ≡ need_lits (need_seen self.now.subject need) }
        ensures { result ≡ is_asked (node_problem self.now path.now) (need_seen self.now.subject need) lit }
    {
        let _need = need;
        let is_selected = !lit.is_negative() && self.is_selected(path, lit.variable());
        is_selected || has_lit(first, second, lit)
    }

    /// Whether a variable is a selector that a node makes true.
    fn is_selected(&self, path: &Position, variable: u32) -> bool
        requires { length path.now ≤ length self.now.levels }
        ensures { result ≡ is_selected (node_problem self.now path.now) variable }
    {
        let concepts = u64::from(self.subject.concept_count());
        let first_sum = concepts + 3 * u64::from(self.subject.pair_count());
        let variable = u64::from(variable);
        if variable < concepts {
            false
        } else if variable < first_sum {
            self.is_emptied(path, variable - concepts)
        } else {
            self.is_sum_kept(variable - first_sum)
        }
    }

    /// Whether a region, three a pair, is forced empty.
    fn is_emptied(&self, path: &Position, region: u64) -> bool
        requires path { length path.now ≤ length self.now.levels }
        requires region { region < 3 * pair_count self.now.subject }
        ensures { result ≡ is_emptied (node_problem self.now path.now) (region / 3) (region % 3) }
    {
        self.subject.facts();
        let forced = self.forced_at(path, (region / 3) as u32);
        is_word(forced.at(region_of((region % 3) as u8)), Occupancy::Empty)
    }

    /// Whether a sum, by its number among the sums, is kept.
    fn is_sum_kept(&self, sum: u64) -> bool
        ensures { result ≡ is_sum_kept self.now.subject sum }
    {
        sum < u64::from(self.subject.sum_count())
            && self.subject.is_kept(self.subject.sum_at(sum as u32))
    }

    /// What is wrong with a pair, by its number, that allows nothing at a node.
    pub(crate) fn pair_fault(&self, path: &Position, pair: u32) -> Option<RejectKind>
        requires { length path.now ≤ length self.now.levels }
        ensures { result ≡ pair_fault (node_problem self.now path.now) pair }
    {
        if pair < self.subject.pair_count() && self.allowed_at(path, pair).is_empty() {
            None
        } else {
            Some(RejectKind::PairNotEmpty)
        }
    }
}

fn region_of(part: u8) -> Region
    ensures { result ≡ region_with part }
{
    match part {
        0 => Region::LeftOnly,
        1 => Region::Both,
        _ => Region::RightOnly,
    }
}

fn is_word(a: Occupancy, b: Occupancy) -> bool
    ensures { result ≡ same_word a b }
{
    match (a, b) {
        (Occupancy::Empty, Occupancy::Empty) => true,
        (Occupancy::Occupied, Occupancy::Occupied) => true,
        (Occupancy::Free, Occupancy::Free) => true,
        _ => false,
    }
}

fn has_lit(first: Option<Lit>, second: Option<Lit>, lit: Lit) -> bool
    ensures { result ≡ has_lit (lits_there first second) lit }
{
    is_lit(first, lit) || is_lit(second, lit)
}

fn is_lit(a: Option<Lit>, lit: Lit) -> bool
    ensures { result ≡ has_lit (lits_there a None) lit }
{
    match a {
        Some(a) => a == lit,
        None => false,
    }
}
