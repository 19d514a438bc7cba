//! A row of names is put in place, or taken back whole.
ghost use Rattle.std.specs.Prelude.{◌≡◌, ◌≢◌, ◌==◌, ◌||◌, ◌<◌, ◌≤◌, ◌-◌, length, map, Ok, Err, OnOk, OnErr, IfOk, IfErr};
ghost use Rattle.taxon_tree.specs.Trees.{Trees, IsForest, children_of};
ghost use Rattle.taxon_tree.specs.Ancestry.{is_ancestor};
ghost use Rattle.taxon_tree.specs.Row.{place_of, with_name, with_link, add_child, add_children, add_row};
ghost use Rattle.taxon_tree.specs.Undo.{Grown, IsTakenBack};
ghost use Rattle.taxon_tree.specs.declared.ForestFault.TheVariants.{NoMemory};

use crate::ForestFault;
use crate::nodes::Nodes;

impl Nodes {
    // The number of a name, which becomes a root where it is new.
    #[tactic(auto, using(crate::proofs::RowLemmas::name_ways))]
    fn put_name(&mut self, name: &[u8], limit: u32) -> Result<u32, ForestFault>
        requires { IsForest self.old }
        ensures ok { OnOk result (with_name limit self.old name.now ≡ Ok self.new) }
        ensures number { IfOk result (λ n. n ≡ place_of self.old name.now) }
        ensures within { IfOk result (λ n. n < length self.new.names) }
        ensures fault { IfErr result (λ k. k ≢ NoMemory → with_name limit self.old name.now ≡ Err k) }
        ensures err { OnErr result (self.new ≡ self.old) }
    {
        if let Some(found) = self.find(name) {
            return Ok(found as u32);
        }
        let number = self.len();
        if number >= limit as usize {
            return Err(ForestFault::TooManyConcepts);
        }
        self.add_root(name)?;
        Ok(number as u32)
    }

    fn is_same_or_ancestor(&self, upper: u32, lower: u32) -> bool
        requires forest { IsForest self.now }
        requires lower { lower < length self.now.names }
        ensures { result ≡ (upper == lower || is_ancestor self.now upper lower) }
    {
        upper == lower || self.is_ancestor(upper, lower)
    }

    // Puts a concept under a parent, if nothing speaks against it.
    #[tactic(auto, using(crate::proofs::RowLemmas::link_ways))]
    fn put_under(&mut self, parent: u32, child: u32) -> Result<(), ForestFault>
        requires forest { IsForest self.old }
        requires parent { parent < length self.old.names }
        requires child { child < length self.old.names }
        ensures ok { OnOk result (with_link parent self.old child ≡ Ok self.new) }
        ensures fault { IfErr result (λ k. k ≢ NoMemory → with_link parent self.old child ≡ Err k) }
        ensures err { OnErr result (self.new ≡ self.old) }
    {
        match self.parent(child) {
            Some(other) if other != parent => Err(ForestFault::TwoParents),
            Some(_) => Err(ForestFault::ChildTwice),
            None if self.is_same_or_ancestor(child, parent) => Err(ForestFault::Cycle),
            None => Ok(self.link(parent, child)?),
        }
    }

    // A child of a row: its name is put in place, and then it is put under the parent.
    fn put_child(&mut self, parent: u32, name: &[u8], limit: u32) -> Result<(), ForestFault>
        requires forest { IsForest self.old }
        requires parent { parent < length self.old.names }
        ensures ok { OnOk result (add_child limit parent self.old name.now ≡ Ok self.new) }
        ensures fault { IfErr result (λ k. k ≢ NoMemory → add_child limit parent self.old name.now ≡ Err k) }
        ensures forest { IsForest self.new }
        ensures grown { (start : Trees) → Grown start parent self.old → Grown start parent self.new }
    {
        let child = self.put_name(name, limit)?;
        self.put_under(parent, child)
    }

    // The parent has `kept` children again, and there are `n` concepts.
    fn take_back(&mut self, n: usize, parent: u32, kept: usize)
        requires forest { IsForest self.old }
        requires parent { parent < length self.old.names }
        ensures { IsTakenBack n parent kept self.old self.new }
    {
        while self.children(parent).len() > kept {
            self.unlink_last(parent);
        }
        self.keep_first(n);
    }

    // The children of a row, from the left: all of them, or none.
    fn put_children(
        &mut self,
        parent: u32,
        names: &[Vec<u8>],
        limit: u32,
    ) -> Result<(), ForestFault>
        requires forest { IsForest self.old }
        requires parent { parent < length self.old.names }
        ensures ok { OnOk result (add_children limit parent self.old (map (λ v. v.items) names.now) ≡ Ok self.new) }
        ensures fault { IfErr result (λ k. k ≢ NoMemory → add_children limit parent self.old (map (λ v. v.items) names.now) ≡ Err k) }
        ensures err { OnErr result (self.new ≡ self.old) }
        ensures forest { IsForest self.new }
    {
        let n = self.len();
        let kept = self.children(parent).len();
        for name in names {
            if let Err(fault) = self.put_child(parent, name, limit) {
                self.take_back(n, parent, kept);
                return Err(fault);
            }
        }
        Ok(())
    }

    // A row: the first name is put in place, and the others are put under it.
    pub(crate) fn add_row(&mut self, names: &[Vec<u8>], limit: u32) -> Result<(), ForestFault>
        requires forest { IsForest self.old }
        requires some { 0 < length names.now }
        ensures ok { OnOk result (add_row limit self.old (map (λ v. v.items) names.now) ≡ Ok self.new) }
        ensures fault { IfErr result (λ k. k ≢ NoMemory → add_row limit self.old (map (λ v. v.items) names.now) ≡ Err k) }
        ensures err { OnErr result (self.new ≡ self.old) }
        ensures forest { IsForest self.new }
    {
        let n = self.len();
        let parent = self.put_name(names[0].as_slice(), limit)?;
        if let Err(fault) = self.put_children(parent, &names[1..], limit) {
            self.keep_first(n);
            return Err(fault);
        }
        Ok(())
    }
}
