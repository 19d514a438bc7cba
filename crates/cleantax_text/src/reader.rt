//! What the lines of a text give, one after the other.
ghost use Rattle.std.specs.Prelude.{◌≡◌, ◌≢◌, ◌<◌, ◌≤◌, true, length, map, sum_by, position, bytes_eq, slice_index_or, slice_set, Ok, Err, OnOk, IfOk, IfErr, IfSome, option_map};
ghost use Rattle.std.specs.List.{list_any};
ghost use Rattle.taxon_tree.specs.Row.{add_row};
ghost use Rattle.taxon_tree.specs.declared.ForestFault.TheVariants as forest;
ghost use Rattle.cleantax_text.specs.declared.TextKind.TheVariants.{NoMemory};
ghost use Rattle.constraint_set.specs.Build.{size_of};
ghost use Rattle.taxon_tree.specs.Trees.{no_trees, number_of};
ghost use Rattle.cleantax_text.specs.Forms.{TaxonomyLine};
ghost use Rattle.cleantax_text.specs.Reading.{nothing_read, in_taxonomy, in_articulations, with_taxonomy, concepts_before, concept_number, kind_of, with_forest, after_row, concept_numbers, with_articulation, after_pair, after_sum, after_form, after_line};
ghost use Rattle.text_words.specs.Views.{words_meant, reference_meant, references_meant};
ghost use Rattle.cleantax_text.specs.Views.{form_meant, IsWell};
ghost use Rattle.cleantax_text.specs.Kept.{meant, IsKept, row_of, with_one_more, among_articulations};

use crate::TextKind;
use crate::forms::{Form, form_of};
use crate::naming::{are_names, copies, is_among, place_of};
use constraint_set::{MAX_ARTICULATIONS, MAX_CONCEPTS, MAX_TAXONOMIES};
use std::alloc::{AllocError, Global};
use taxon_tree::{Forest, ForestFault};
use text_words::{Reference, is_taxonomy_name};
use world_model::Articulation;

/// Where in a text one is.
#[derive(Clone, Copy)]
pub(crate) enum Place {
    Before,
    InTaxonomy,
    InArticulations,
}

/// What the lines so far have given.
#[derive(Drop)]
pub(crate) struct Reader {
    pub(crate) alloc: Global,
    pub(crate) ids: Vec<Vec<u8>>,
    pub(crate) forests: Vec<Forest>,
    pub(crate) articulations: Vec<Articulation>,
    place: Place,
}

// How many concepts these forests have.
fn count_concepts(forests: &[Forest]) -> u32
    requires { sum_by size_of forests.now ≤ MAX_CONCEPTS }
    ensures { result ≡ sum_by size_of forests.now }
{
    let mut count = 0;
    for forest in forests {
        count += forest.len();
    }
    count
}

impl Reader {
    pub(crate) fn new(alloc: Global) -> Reader
        ensures meant { meant result ≡ nothing_read }
        ensures kept { IsKept (meant result) }
    {
        Reader {
            alloc,
            ids: Vec::new(alloc),
            forests: Vec::new(alloc),
            articulations: Vec::new(alloc),
            place: Place::Before,
        }
    }

    // The number of the taxonomy with this name.
    fn find_id(&self, id: &[u8]) -> Option<usize>
        ensures number { result ≡ position (bytes_eq id.now) (meant self.now).ids }
        ensures within { IfSome result (λ which. which < length (meant self.now).ids) }
    {
        place_of(self.ids.as_slice(), id)
    }

    // How many concepts the first so many taxonomies have.
    fn concepts_before(&self, which: usize) -> u32
        requires kept { IsKept (meant self.now) }
        requires which { which ≤ length (meant self.now).forests }
        ensures { result ≡ concepts_before (meant self.now) which }
    {
        count_concepts(&self.forests[..which])
    }

    /// The number of a concept, if it is known.
    pub(crate) fn concept_number(&self, reference: Reference<'_>) -> Option<u32>
        requires { IsKept (meant self.now) }
        ensures number { result ≡ concept_number (meant self.now) (reference_meant reference.entry) }
        ensures within { IfSome result (λ c. c < MAX_CONCEPTS) }
    {
        let which = self.find_id(reference.taxonomy)?;
        let concept = self.find_in(which, reference.concept)?;
        Some(self.concepts_before(which) + concept)
    }

    fn find_in(&self, which: usize, name: &[u8]) -> Option<u32>
        requires { which < length (meant self.now).forests }
        ensures { result ≡ number_of (slice_index_or (meant self.now).forests which no_trees) name.now }
    {
        self.forests[which].find(name)
    }

    fn has_id(&self, id: &[u8]) -> bool
        ensures { result ≡ list_any (bytes_eq id.now) (meant self.now).ids }
    {
        is_among(self.ids.as_slice(), id)
    }

    fn is_in_taxonomy(&self) -> bool
        ensures { result ≡ in_taxonomy (meant self.now).place }
    {
        matches!(self.place, Place::InTaxonomy)
    }

    pub(crate) fn is_in_articulations(&self) -> bool
        ensures { result ≡ in_articulations (meant self.now).place }
    {
        matches!(self.place, Place::InArticulations)
    }

    // One more taxonomy, which has no concepts yet.
    fn add_taxonomy(&mut self, id: &[u8]) -> Result<(), AllocError>
        ensures { OnOk result (meant self.new ≡ with_taxonomy (meant self.old) id.now) }
    {
        let id = Vec::from_slice(self.alloc, id)?;
        self.ids.push(id)?;
        self.forests.push(Forest::new(self.alloc))?;
        self.place = Place::InTaxonomy;
        Ok(())
    }

    // A line `taxonomy NAME`.
    fn take_taxonomy(&mut self, id: &[u8]) -> Result<(), TextKind>
        ensures ok { OnOk result (after_form (meant self.old) (TaxonomyLine id.now) ≡ Ok (meant self.new)) }
        ensures fault { IfErr result (λ k. k ≢ NoMemory → after_form (meant self.old) (TaxonomyLine id.now) ≡ Err k) }
    {
        if !is_taxonomy_name(id) {
            return Err(TextKind::BadName);
        }
        if self.has_id(id) {
            return Err(TextKind::TaxonomyTwice);
        }
        if self.ids.len() >= MAX_TAXONOMIES {
            return Err(TextKind::TaxonomyCount);
        }
        Ok(self.add_taxonomy(id)?)
    }

    // A row, whose names are names.
    fn add_row(&mut self, names: &[Vec<u8>]) -> Result<(), TextKind>
        requires kept { IsKept (meant self.old) }
        requires placed { in_taxonomy (meant self.old).place ≡ true }
        requires some { 0 < length names.now }
        ensures ok { OnOk result (with_forest (meant self.old) (row_of (meant self.old) (map (λ v. v.items) names.now)) ≡ Ok (meant self.new)) }
        ensures fault { IfErr result (λ k. k ≢ NoMemory → with_forest (meant self.old) (row_of (meant self.old) (map (λ v. v.items) names.now)) ≡ Err k) }
    {
        let last = self.forests.len() - 1;
        let limit = MAX_CONCEPTS - self.concepts_before(last);
        add_row_at(self.forests.as_mut_slice(), last, names, limit)?;
        Ok(())
    }

    // A row in the last taxonomy.
    fn take_row(&mut self, words: &[&[u8]]) -> Result<(), TextKind>
        requires kept { IsKept (meant self.old) }
        requires some { 1 ≤ length words.now }
        ensures ok { OnOk result (after_row (meant self.old) (words_meant words.now) ≡ Ok (meant self.new)) }
        ensures fault { IfErr result (λ k. k ≢ NoMemory → after_row (meant self.old) (words_meant words.now) ≡ Err k) }
    {
        if !self.is_in_taxonomy() {
            return Err(TextKind::RowOutsideTaxonomy);
        }
        if !are_names(words) {
            return Err(TextKind::BadName);
        }
        let names = copies(self.alloc, words)?;
        self.add_row(names.as_slice())
    }

    fn push_articulation(&mut self, articulation: Articulation) -> Result<(), AllocError>
        ensures { OnOk result (meant self.new ≡ with_one_more (meant self.old) articulation) }
    {
        self.articulations.push(articulation)?;
        Ok(())
    }

    fn add_articulation(&mut self, articulation: Articulation) -> Result<(), TextKind>
        ensures ok { OnOk result (with_articulation (meant self.old) articulation ≡ Ok (meant self.new)) }
        ensures fault { IfErr result (λ k. k ≢ NoMemory → with_articulation (meant self.old) articulation ≡ Err k) }
    {
        if self.articulations.len() >= MAX_ARTICULATIONS {
            return Err(TextKind::TooManyArticulations);
        }
        Ok(self.push_articulation(articulation)?)
    }

    // An entry on two concepts.
    fn take_pair(&mut self, left: &[u8], relation: &[&[u8]], right: &[u8]) -> Result<(), TextKind>
        requires { IsKept (meant self.old) }
        ensures ok { OnOk result (after_pair (meant self.old) left.now (words_meant relation.now) right.now ≡ Ok (meant self.new)) }
        ensures fault { IfErr result (λ k. k ≢ NoMemory → after_pair (meant self.old) left.now (words_meant relation.now) right.now ≡ Err k) }
    {
        let articulation = self.read_pair(left, relation, right)?;
        self.add_articulation(articulation)
    }

    /// The numbers of several concepts, if each is known.
    pub(crate) fn concept_numbers(
        &self,
        references: &[Reference<'_>],
    ) -> Result<Option<Vec<u32>>, AllocError>
        requires { IsKept (meant self.now) }
        ensures { IfOk result (λ found. option_map (λ v. v.items) found ≡ concept_numbers (meant self.now) (references_meant references.now)) }
    {
        let mut numbers = Vec::new(self.alloc);
        for reference in references {
            let Some(number) = self.concept_number(*reference) else {
                return Ok(None);
            };
            numbers.push(number)?;
        }
        Ok(Some(numbers))
    }

    // An entry on a sum.
    fn take_sum(&mut self, whole: &[u8], parts: &[&[u8]]) -> Result<(), TextKind>
        requires { IsKept (meant self.old) }
        ensures ok { OnOk result (after_sum (meant self.old) whole.now (words_meant parts.now) ≡ Ok (meant self.new)) }
        ensures fault { IfErr result (λ k. k ≢ NoMemory → after_sum (meant self.old) whole.now (words_meant parts.now) ≡ Err k) }
    {
        let articulation = self.read_sum(whole, parts)?;
        self.add_articulation(articulation)
    }

    fn enter_articulations(&mut self)
        ensures { meant self.new ≡ among_articulations (meant self.old) }
    {
        self.place = Place::InArticulations;
    }

    // A line of this form.
    fn take_form(&mut self, form: &Form<'_>) -> Result<(), TextKind>
        requires kept { IsKept (meant self.old) }
        requires well { IsWell (form_meant form.now) }
        ensures ok { OnOk result (after_form (meant self.old) (form_meant form.now) ≡ Ok (meant self.new)) }
        ensures fault { IfErr result (λ k. k ≢ NoMemory → after_form (meant self.old) (form_meant form.now) ≡ Err k) }
    {
        match form {
            Form::Blank => Ok(()),
            Form::TaxonomyLine(id) => self.take_taxonomy(id),
            Form::ArticulationLine => {
                self.enter_articulations();
                Ok(())
            }
            Form::RowLine(names) => self.take_row(names.as_slice()),
            Form::PairEntry {
                left,
                relation,
                right,
            } => self.take_pair(left, relation.as_slice(), right),
            Form::SumEntry { whole, parts } => self.take_sum(whole, parts.as_slice()),
            Form::NoForm => Err(TextKind::BadLine),
        }
    }

    /// Takes a line in, which may still have a carriage return and a comment.
    pub(crate) fn take_line(&mut self, line: &[u8]) -> Result<(), TextKind>
        requires { IsKept (meant self.old) }
        ensures ok { OnOk result (after_line (meant self.old) line.now ≡ Ok (meant self.new)) }
        ensures fault { IfErr result (λ k. k ≢ NoMemory → after_line (meant self.old) line.now ≡ Err k) }
        ensures kept { OnOk result (IsKept (meant self.new)) }
    {
        let form = form_of(self.alloc, line)?;
        self.take_form(&form)
    }
}

// A row in the forest at a place.
fn add_row_at(
    forests: &mut [Forest],
    at: usize,
    names: &[Vec<u8>],
    limit: u32,
) -> Result<(), ForestFault>
    requires at { at < length forests.old }
    requires some { 0 < length names.now }
    ensures made { OnOk result (add_row limit (slice_index_or forests.old at no_trees) (map (λ v. v.items) names.now) ≡ Ok (slice_index_or forests.new at no_trees)) }
    ensures others { OnOk result (forests.new ≡ slice_set forests.old at (slice_index_or forests.new at no_trees)) }
    ensures fault { IfErr result (λ k. k ≢ forest.NoMemory → add_row limit (slice_index_or forests.old at no_trees) (map (λ v. v.items) names.now) ≡ Err k) }
{
    let forest = &mut forests[at];
    forest.add_row(names, limit)
}

impl From<ForestFault> for TextKind {
    ghost from_gives = { λ fault kind. kind ≡ kind_of fault };

    fn from(fault: ForestFault) -> TextKind {
        match fault {
            ForestFault::TwoParents => TextKind::TwoParents,
            ForestFault::ChildTwice => TextKind::ChildTwice,
            ForestFault::Cycle => TextKind::Cycle,
            ForestFault::TooManyConcepts => TextKind::TooManyConcepts,
            ForestFault::NoMemory => TextKind::NoMemory,
        }
    }
}
