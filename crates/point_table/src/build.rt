//! The rules of a problem: what its trees, pairs and sums say of two concepts, closed under implication, and which heads need
//! one of a row.
ghost use Rattle.std.specs.Prelude.{◌≡◌, ◌≢◌, ℕ, ◌+◌, ◌*◌, ◌/◌, ◌<◌, ◌≤◌, true, false, length, All, ◌⊎◌, Contains, IfOk, OnOk};
ghost use Rattle.rcc5_core.specs.declared.Occupancy.TheVariants.{Empty};
ghost use Rattle.rcc5_core.specs.Region.{same_word};
ghost use Rattle.world_model.specs.Problem.{Problem, concept_count, children_of, pair_count};
ghost use Rattle.bit_rows.specs.Rows.{has_bit, bit_in};
ghost use Rattle.point_table.specs.Points.{AreAllowed};
ghost use Rattle.point_table.specs.Growing.{AreImplied, AreExcluded, AreCovers, FitConcepts, AreRules, IsSquare, IsSameSize, HasCover, IsMoreCovered};

use crate::rules::Rules;
use bit_rows::{Rows, has_bit};
use constraint_set::Problem;
use rcc5_core::{Occupancy, RelSet, forced};
use std::alloc::{AllocError, Global};

// So many rows without bits.
fn empty_rows(alloc: Global, count: usize, width: usize) -> Result<Rows, AllocError>
    requires { 0 < width }
    ensures count { IfOk result (λ rows. rows.count ≡ count) }
    ensures width { IfOk result (λ rows. rows.width ≡ width) }
    ensures empty { IfOk result (λ rows. (r k : ℕ) → bit_in rows r k ≡ false) }
{
    let mut rows = Rows::new(alloc, width);
    for _row in 0..count {
        rows.push_empty()?;
    }
    Ok(rows)
}

// Adds a place to a row on a condition.
fn set_if(on: bool, row: usize, place: usize, rows: &mut Rows)
    requires row { row < rows.old.count }
    requires within { place < 64 * rows.old.width }
    ensures size { IsSameSize rows.old rows.new }
    ensures bits { (r k : ℕ) → bit_in rows.new r k ≡ true → (bit_in rows.old r k ≡ true) ⊎ ((on ≡ true) × (r ≡ row) × (k ≡ place)) }
{
    if on {
        rows.set(row, place);
    }
}

// Adds the places of another row to a row on a condition.
fn join_if(on: bool, row: usize, other: &[u64], rows: &mut Rows)
    requires row { row < rows.old.count }
    requires width { length other.now ≤ rows.old.width }
    ensures size { IsSameSize rows.old rows.new }
    ensures bits { (r k : ℕ) → bit_in rows.new r k ≡ true → (bit_in rows.old r k ≡ true) ⊎ ((on ≡ true) × (r ≡ row) × (has_bit other.now k ≡ true)) }
{
    if on {
        rows.join(row, other);
    }
}

// Adds that a concept follows from each child.
fn add_parent(problem: &Problem, concept: u32, implied: &mut Rows)
    requires within { concept < concept_count problem.now }
    requires square { IsSquare (concept_count problem.now) implied.old }
    requires rules { AreImplied problem.now implied.old }
    ensures size { IsSameSize implied.old implied.new }
    ensures rules { AreImplied problem.now implied.new }
{
    problem.facts();
    for child in problem.children(concept) {
        set_if(true, *child as usize, concept as usize, implied);
    }
}

// Adds that a child does not go with the others.
fn add_sibling(problem: &Problem, concept: u32, child: u32, excluded: &mut Rows)
    requires within { concept < concept_count problem.now }
    requires child { Contains (children_of problem.now concept) child }
    requires on { problem.now.switches.sibling ≡ true }
    requires square { IsSquare (concept_count problem.now) excluded.old }
    requires rules { AreExcluded problem.now excluded.old }
    ensures size { IsSameSize excluded.old excluded.new }
    ensures rules { AreExcluded problem.now excluded.new }
{
    problem.facts();
    for other in problem.children(concept) {
        set_if(*other != child, child as usize, *other as usize, excluded);
    }
}

// Adds that no child of a concept goes with another.
fn add_siblings(problem: &Problem, concept: u32, excluded: &mut Rows)
    requires within { concept < concept_count problem.now }
    requires on { problem.now.switches.sibling ≡ true }
    requires square { IsSquare (concept_count problem.now) excluded.old }
    requires rules { AreExcluded problem.now excluded.old }
    ensures size { IsSameSize excluded.old excluded.new }
    ensures rules { AreExcluded problem.now excluded.new }
{
    for child in problem.children(concept) {
        add_sibling(problem, concept, *child, excluded);
    }
}

// Adds what the trees say of two concepts.
fn add_trees(problem: &Problem, implied: &mut Rows, excluded: &mut Rows)
    requires implied_square { IsSquare (concept_count problem.now) implied.old }
    requires implied_rules { AreImplied problem.now implied.old }
    requires excluded_square { IsSquare (concept_count problem.now) excluded.old }
    requires excluded_rules { AreExcluded problem.now excluded.old }
    ensures implied_size { IsSameSize implied.old implied.new }
    ensures implied_rules { AreImplied problem.now implied.new }
    ensures excluded_size { IsSameSize excluded.old excluded.new }
    ensures excluded_rules { AreExcluded problem.now excluded.new }
{
    let switches = problem.switches();
    for concept in 0..problem.concept_count() {
        add_parent(problem, concept, implied);
        if switches.sibling {
            add_siblings(problem, concept, excluded);
        }
    }
}

// Adds what the pairs with a region forced empty say of their concepts.
fn add_pairs(
    problem: &Problem,
    sets: &[RelSet],
    pairs: &[u32],
    implied: &mut Rows,
    excluded: &mut Rows,
)
    requires sets { AreAllowed problem.now sets.now }
    requires pairs { All (λ pair. pair < pair_count problem.now) pairs.now }
    requires implied_square { IsSquare (concept_count problem.now) implied.old }
    requires implied_rules { AreImplied problem.now implied.old }
    requires excluded_square { IsSquare (concept_count problem.now) excluded.old }
    requires excluded_rules { AreExcluded problem.now excluded.old }
    ensures implied_size { IsSameSize implied.old implied.new }
    ensures implied_rules { AreImplied problem.now implied.new }
    ensures excluded_size { IsSameSize excluded.old excluded.new }
    ensures excluded_rules { AreExcluded problem.now excluded.new }
{
    for pair in pairs {
        let (left, right) = problem.pair_at(*pair);
        let regions = forced(sets[*pair as usize]);
        let (left, right) = (left as usize, right as usize);
        set_if(is_empty(regions.left_only), left, right, implied);
        set_if(is_empty(regions.right_only), right, left, implied);
        let apart = is_empty(regions.both);
        set_if(apart, left, right, excluded);
        set_if(apart, right, left, excluded);
    }
}

// Whether a region is forced empty.
fn is_empty(occupancy: Occupancy) -> bool
    ensures { result ≡ same_word occupancy Empty }
{
    occupancy == Occupancy::Empty
}

// Adds to each row that has a concept what the concept's own row has.
fn spread_implied(alloc: Global, concept: usize, implied: &mut Rows) -> Result<(), AllocError>
    requires { concept < implied.old.count }
    ensures size { OnOk result (IsSameSize implied.old implied.new) }
    ensures rules { OnOk result ((p : Problem) → AreImplied p implied.old → AreImplied p implied.new) }
{
    let own = Vec::from_slice(alloc, implied.row(concept))?;
    for row in 0..implied.count() {
        let has = has_bit(implied.row(row), concept);
        join_if(has, row, &own, implied);
    }
    Ok(())
}

// Adds to each concept's row what those do not go with that follow from it.
fn spread_excluded(
    alloc: Global,
    concept: usize,
    implied: &Rows,
    excluded: &mut Rows,
) -> Result<(), AllocError>
    requires within { concept < excluded.old.count }
    requires count { excluded.old.count ≤ implied.now.count }
    ensures size { OnOk result (IsSameSize excluded.old excluded.new) }
    ensures rules { OnOk result ((p : Problem) → AreImplied p implied.now → AreExcluded p excluded.old → AreExcluded p excluded.new) }
{
    let own = Vec::from_slice(alloc, excluded.row(concept))?;
    for row in 0..excluded.count() {
        let has = has_bit(implied.row(row), concept);
        join_if(has, row, &own, excluded);
    }
    Ok(())
}

// Closes the rules of two concepts under implication.
fn close(alloc: Global, implied: &mut Rows, excluded: &mut Rows) -> Result<(), AllocError>
    requires { excluded.old.count ≡ implied.old.count }
    ensures implied_size { OnOk result (IsSameSize implied.old implied.new) }
    ensures excluded_size { OnOk result (IsSameSize excluded.old excluded.new) }
    ensures implied_rules { OnOk result ((p : Problem) → AreImplied p implied.old → AreImplied p implied.new) }
    ensures excluded_rules { OnOk result ((p : Problem) → AreImplied p implied.old → AreExcluded p excluded.old → AreExcluded p excluded.new) }
{
    for concept in 0..implied.count() {
        spread_implied(alloc, concept, implied)?;
    }
    for concept in 0..excluded.count() {
        spread_excluded(alloc, concept, implied, excluded)?;
    }
    Ok(())
}

// The greatest of some numbers and one more.
fn last_of(first: usize, others: &[u32]) -> usize {
    let mut last = first;
    for other in others {
        if *other as usize > last {
            last = *other as usize;
        }
    }
    last
}

// Sets the places of a row to some concepts.
fn set_all(row: usize, parts: &[u32], rows: &mut Rows)
    requires row { row < rows.old.count }
    requires within { All (λ part. part < 64 * rows.old.width) parts.now }
    ensures size { IsSameSize rows.old rows.new }
    ensures others { (r k : ℕ) → r ≢ row → bit_in rows.new r k ≡ bit_in rows.old r k }
    ensures there { All (λ part. bit_in rows.new row part ≡ true) parts.now }
{
    for part in parts {
        rows.set(row, *part as usize);
    }
}

// Adds that a concept has one of some others, to be looked at where the last of them is tried.
fn add_cover(head: usize, parts: &[u32], rules: &mut Rules) -> Result<(), AllocError>
    requires some { 0 < rules.old.covers.width }
    requires within { All (λ part. part < 64 * rules.old.covers.width) parts.now }
    requires heads { length rules.old.heads.items ≡ rules.old.covers.count }
    ensures same { OnOk result (IsMoreCovered rules.old rules.new) }
    ensures covers { OnOk result ((p : Problem) → HasCover p head parts.now → AreCovers p rules.old.heads.items rules.old.covers → AreCovers p rules.new.heads.items rules.new.covers) }
{
    let number = rules.covers.count();
    rules.covers.push_empty()?;
    set_all(number, parts, &mut rules.covers);
    rules.heads.push(head)?;
    let last = last_of(head, parts);
    if let Some(numbers) = rules.last.get_mut(last) {
        numbers.push(number)?;
    }
    Ok(())
}

// Adds that each parent is covered by its children.
fn cover_parents(problem: &Problem, rules: &mut Rules) -> Result<(), AllocError>
    requires on { problem.now.switches.coverage ≡ true }
    requires some { 0 < rules.old.covers.width }
    requires wide { concept_count problem.now ≤ 64 * rules.old.covers.width }
    requires heads { length rules.old.heads.items ≡ rules.old.covers.count }
    requires covers { AreCovers problem.now rules.old.heads.items rules.old.covers }
    ensures same { OnOk result (IsMoreCovered rules.old rules.new) }
    ensures covers { OnOk result (AreCovers problem.now rules.new.heads.items rules.new.covers) }
{
    problem.facts();
    for concept in 0..problem.concept_count() {
        let children = problem.children(concept);
        if !children.is_empty() {
            add_cover(concept as usize, children, rules)?;
        }
    }
    Ok(())
}

// One empty list of numbers for each concept.
fn empty_lists(alloc: Global, count: usize) -> Result<Vec<Vec<usize>>, AllocError> {
    let mut lists = Vec::with_capacity(alloc, count)?;
    for _list in 0..count {
        lists.push(Vec::new(alloc))?;
    }
    Ok(lists)
}

// Rules that say nothing.
fn no_rules(alloc: Global, count: usize) -> Result<Rules, AllocError>
    requires { count ≤ 1024 }
    ensures fit { IfOk result (FitConcepts count) }
    ensures rules { IfOk result (λ rules. (p : Problem) → AreRules p rules) }
    ensures width { IfOk result (λ rules. rules.covers.width ≡ rules.implied.width) }
{
    let width = count / 64 + 1;
    Ok(Rules {
        implied: empty_rows(alloc, count, width)?,
        excluded: empty_rows(alloc, count, width)?,
        last: empty_lists(alloc, count)?,
        heads: Vec::new(alloc),
        covers: Rows::new(alloc, width),
    })
}

// The rules of a problem.
pub(crate) fn rules_of(
    alloc: Global,
    problem: &Problem,
    sets: &[RelSet],
    pairs: &[u32],
) -> Result<Rules, AllocError>
    requires sets { AreAllowed problem.now sets.now }
    requires pairs { All (λ pair. pair < pair_count problem.now) pairs.now }
    ensures fit { IfOk result (FitConcepts (concept_count problem.now)) }
    ensures rules { IfOk result (AreRules problem.now) }
{
    problem.facts();
    let mut rules = no_rules(alloc, problem.concept_count() as usize)?;
    add_trees(problem, &mut rules.implied, &mut rules.excluded);
    add_pairs(
        problem,
        sets,
        pairs,
        &mut rules.implied,
        &mut rules.excluded,
    );
    close(alloc, &mut rules.implied, &mut rules.excluded)?;
    if problem.switches().coverage {
        cover_parents(problem, &mut rules)?;
    }
    Ok(rules)
}

// Two rows without bits: nothing is known where nothing was tried.
pub(crate) fn nothing_known(alloc: Global, width: usize) -> Result<Rows, AllocError>
    requires { 0 < width }
    ensures count { IfOk result (λ rows. rows.count ≡ 2) }
    ensures width { IfOk result (λ rows. rows.width ≡ width) }
    ensures empty { IfOk result (λ rows. (r k : ℕ) → bit_in rows r k ≡ false) }
{
    empty_rows(alloc, 2, width)
}
