//! The tree of a domain's mappings.
ghost use Rattle.std.specs.Prelude.{◌≡◌, ℕ, ◌+◌, ◌-◌, ◌*◌, ◌^◌, ◌<◌, ◌≤◌, ◌↔◌, [], length, Ok, Err, Some, None, IfOk, OnOk, OnErr};
ghost use Rattle.std.specs.Result.{result_unwrap_or};
ghost use Rattle.vi_bytes.specs.Spans.{IsProper};
ghost use Rattle.vi_bytes.specs.Mappings.{AreApart, mapping_at, mapping_meeting, mapping_cut, with_mapping, within_span, without_span};
ghost use Rattle.vi_tree.specs.Trees.{others_than, cut_of, level};

use crate::Steps;
use crate::insert::insert_at;
use crate::node::{Link, Node};
use crate::nodes::Nodes;
use crate::remove::remove_at;
use crate::search::{lies_in, lowest_meeting};
use std::alloc::{AllocError, Global};
use std::marker::Model;
use vi_bytes::{Mapping, Over, Span, Split};

/// The mappings of a domain, no two of which have a common address, as a balanced search tree, and
/// room for more. Contracts see the list of mappings by rising address and `spare`, the number of
/// those that can be inserted before `reserve` has to be called; together they are fewer than 2^32.
///
/// Each call with `steps` raises it by the number of nodes that it looks at.
#[derive(Drop)]
pub struct Tree {
    nodes: Nodes,
    root: Link,
    // For how many more nodes there is room in the slab.
    spare: u32,
}

impl Model for Tree {
    ghost use Rattle.vi_bytes.specs.Mappings.{MappingSet};
    ghost use Rattle.vi_tree.specs.Shapes.{inorder};
    ghost use Rattle.vi_tree.specs.Trees.{shape_of, IsTree};

    ghost Value = { MappingSet };

    ghost view = { λ t. record { mappings = inorder (shape_of t.nodes t.root); spare = t.spare } };

    ghost invariant = { λ t. IsTree t.nodes t.root t.spare (shape_of t.nodes t.root) };
}

impl Tree {
    /// No mapping, with room for `n`.
    pub fn with_room(alloc: Global, n: u32) -> Result<Tree, AllocError>
        ensures empty { IfOk result (λ t. t.mappings ≡ []) }
        ensures room { IfOk result (λ t. n ≤ t.spare) }
        ensures few { IfOk result (λ t. length t.mappings + t.spare < 2 ^ 32) }
    {
        Ok(Tree {
            nodes: Nodes::with_room(alloc, n)?,
            root: None,
            spare: n,
        })
    }

    /// The number of mappings.
    pub fn len(&self) -> u32
        ensures number { result ≡ length self.now.mappings }
        ensures apart { AreApart self.now.mappings }
        ensures few { length self.now.mappings + self.now.spare < 2 ^ 32 }
    {
        self.nodes.len() as u32
    }

    /// Makes room for `n` more mappings. The room that is there stays.
    pub fn reserve(&mut self, n: u32) -> Result<(), AllocError>
        requires { length self.old.mappings + n < 2 ^ 32 }
        ensures room { OnOk result (n ≤ self.new.spare) }
        ensures kept { self.new.mappings ≡ self.old.mappings }
        ensures spare { self.old.spare ≤ self.new.spare }
        ensures refused { OnErr result (self.new ≡ self.old) }
        ensures apart { AreApart self.new.mappings }
        ensures few { length self.new.mappings + self.new.spare < 2 ^ 32 }
    {
        if self.spare < n {
            self.nodes.reserve(n)?;
            self.spare = n;
        }
        Ok(())
    }

    /// Puts the mapping among the others, or answers the lowest that shares an address with it. Takes
    /// no memory.
    pub fn insert(&mut self, m: Mapping, steps: &mut Steps) -> Result<(), Over>
        requires proper { IsProper m.span }
        requires room { 1 ≤ self.old.spare }
        requires counts { steps.old ≤ 2 ^ 63 }
        ensures over { (met : Mapping) → (result ≡ Err (record { met = met })) ↔ (mapping_meeting m.span self.old.mappings ≡ Some met) }
        ensures inserted { OnOk result (self.new ≡ record { mappings = with_mapping m self.old.mappings; spare = self.old.spare - 1 }) }
        ensures refused { OnErr result (self.new ≡ self.old) }
        ensures apart { AreApart self.new.mappings }
        ensures few { length self.new.mappings + self.new.spare < 2 ^ 32 }
        ensures rises { steps.old ≤ steps.new }
        ensures bound { 2 ^ (steps.new - steps.old) ≤ (length self.old.mappings + 2) ^ 16 }
    {
        match self.lowest(&m.span, steps) {
            Some(met) => Err(Over { met }),
            None => {
                self.link(m, steps);
                Ok(())
            }
        }
    }

    /// The mapping that has the address.
    pub fn find(&self, address: u64, steps: &mut Steps) -> Option<Mapping>
        requires { steps.old ≤ 2 ^ 63 }
        ensures found { result ≡ mapping_at address self.now.mappings }
        ensures rises { steps.old ≤ steps.new }
        ensures bound { 2 ^ (steps.new - steps.old) ≤ (length self.now.mappings + 1) ^ 2 }
    {
        let at = Span {
            first: address,
            last: address,
        };
        self.lowest(&at, steps)
    }

    /// The lowest mapping that shares an address with the span.
    pub fn meeting(&self, span: &Span, steps: &mut Steps) -> Option<Mapping>
        requires proper { IsProper span.now }
        requires counts { steps.old ≤ 2 ^ 63 }
        ensures found { result ≡ mapping_meeting span.now self.now.mappings }
        ensures rises { steps.old ≤ steps.new }
        ensures bound { 2 ^ (steps.new - steps.old) ≤ (length self.now.mappings + 1) ^ 2 }
    {
        self.lowest(span, steps)
    }

    /// Removes all mappings that lie in the span and answers their number, or removes none and answers
    /// the lowest that lies in it only in part. Takes no memory.
    pub fn unmap(&mut self, span: &Span, steps: &mut Steps) -> Result<u32, Split>
        requires proper { IsProper span.now }
        requires counts { steps.old ≤ 2 ^ 63 }
        ensures split { (met : Mapping) → (result ≡ Err (record { met = met })) ↔ (mapping_cut span.now self.old.mappings ≡ Some met) }
        ensures number { IfOk result (λ n. n ≡ length (within_span span.now self.old.mappings)) }
        ensures removed { IfOk result (λ n. self.new ≡ record { mappings = without_span span.now self.old.mappings; spare = self.old.spare + n }) }
        ensures refused { OnErr result (self.new ≡ self.old) }
        ensures apart { AreApart self.new.mappings }
        ensures few { length self.new.mappings + self.new.spare < 2 ^ 32 }
        ensures rises { steps.old ≤ steps.new }
        ensures bound { (t : ℕ) × (steps.new - steps.old ≤ (result_unwrap_or result 0 + 1) * t) × (2 ^ t ≤ (length self.old.mappings + 2) ^ 32) }
    {
        match self.lowest_cut(span, steps) {
            Some(met) => Err(Split { met }),
            None => Ok(self.remove_within(span, steps)),
        }
    }

    // The lowest mapping that shares an address with the span.
    fn lowest(&self, span: &Span, steps: &mut Steps) -> Option<Mapping>
        requires { steps.old + 64 < 2 ^ 64 }
        ensures found { result ≡ mapping_meeting span.now self.now.mappings }
        ensures apart { AreApart self.now.mappings }
        ensures few { length self.now.mappings + self.now.spare < 2 ^ 32 }
        ensures rises { steps.old ≤ steps.new }
        ensures counted { steps.new ≤ steps.old + level (length self.now.mappings) }
    {
        lowest_meeting(&self.nodes, self.root, span, steps)
    }

    // The mapping that has the address, if it doesn't lie in the span.
    fn cut_at(&self, address: u64, span: &Span, steps: &mut Steps) -> Option<Mapping>
        requires { steps.old + 64 < 2 ^ 64 }
        ensures found { result ≡ cut_of span.now (mapping_at address self.now.mappings) }
        ensures rises { steps.old ≤ steps.new }
        ensures counted { steps.new ≤ steps.old + level (length self.now.mappings) }
    {
        let at = Span {
            first: address,
            last: address,
        };
        match self.lowest(&at, steps) {
            Some(met) => { if lies_in(&met, span) { None } else { Some(met) } }
            None => None,
        }
    }

    // The lowest mapping that lies only in part in the span: it has an end of the span.
    fn lowest_cut(&self, span: &Span, steps: &mut Steps) -> Option<Mapping>
        requires proper { IsProper span.now }
        requires counts { steps.old + 128 < 2 ^ 64 }
        ensures found { result ≡ mapping_cut span.now self.now.mappings }
        ensures apart { AreApart self.now.mappings }
        ensures few { length self.now.mappings + self.now.spare < 2 ^ 32 }
        ensures rises { steps.old ≤ steps.new }
        ensures counted { steps.new ≤ steps.old + 2 * level (length self.now.mappings) }
    {
        let _ = &self.spare;
        match self.cut_at(span.first, span, steps) {
            Some(met) => Some(met),
            None => self.cut_at(span.last, span, steps),
        }
    }

    // Links a node for the mapping, which lies apart from all others.
    fn link(&mut self, m: Mapping, steps: &mut Steps)
        requires proper { IsProper m.span }
        requires room { 1 ≤ self.old.spare }
        requires free { mapping_meeting m.span self.old.mappings ≡ None }
        requires counts { steps.old + 512 < 2 ^ 64 }
        ensures inserted { self.new ≡ record { mappings = with_mapping m self.old.mappings; spare = self.old.spare - 1 } }
        ensures apart { AreApart self.new.mappings }
        ensures few { length self.new.mappings + self.new.spare < 2 ^ 32 }
        ensures rises { steps.old ≤ steps.new }
        ensures counted { steps.new ≤ steps.old + (6 * level (length self.old.mappings) + 1) }
    {
        let leaf = Node {
            mapping: m,
            left: None,
            right: None,
        };
        let key = self.nodes.put(leaf, steps);
        self.root = insert_at(&mut self.nodes, self.root, key, &m, steps);
        self.spare -= 1;
    }

    // Takes out the mapping that begins at the address, which is there.
    fn remove(&mut self, first: u64, steps: &mut Steps)
        requires there { length (others_than first self.old.mappings) + 1 ≡ length self.old.mappings }
        requires counts { steps.old + 512 < 2 ^ 64 }
        ensures removed { self.new ≡ record { mappings = others_than first self.old.mappings; spare = self.old.spare + 1 } }
        ensures apart { AreApart self.new.mappings }
        ensures few { length self.new.mappings + self.new.spare < 2 ^ 32 }
        ensures rises { steps.old ≤ steps.new }
        ensures counted { steps.new ≤ steps.old + (6 * level (length self.old.mappings) + 1) }
    {
        self.root = remove_at(&mut self.nodes, self.root, first, steps);
        self.spare += 1;
    }

    // Takes out all mappings that lie in the span, the lowest first. None lies in it only in part.
    fn remove_within(&mut self, span: &Span, steps: &mut Steps) -> u32
        requires proper { IsProper span.now }
        requires apart { AreApart self.old.mappings }
        requires few { length self.old.mappings + self.old.spare < 2 ^ 32 }
        requires uncut { mapping_cut span.now self.old.mappings ≡ None }
        requires counts { steps.old ≤ 2 ^ 63 + 128 }
        ensures number { result ≡ length (within_span span.now self.old.mappings) }
        ensures removed { self.new ≡ record { mappings = without_span span.now self.old.mappings; spare = self.old.spare + result } }
        ensures apart { AreApart self.new.mappings }
        ensures few { length self.new.mappings + self.new.spare < 2 ^ 32 }
        ensures rises { steps.old ≤ steps.new }
        ensures counted { steps.new ≤ steps.old + (result * (7 * level (length self.old.mappings) + 1) + level (length self.old.mappings)) }
    {
        let mut removed = 0;
        while let Some(met) = self.lowest(span, steps) {
            self.remove(met.span.first, steps);
            removed += 1;
        }
        removed
    }
}
