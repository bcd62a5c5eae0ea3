//! The mappings of one domain.
ghost use Rattle.std.specs.Prelude.{◌≡◌, ◌<◌, ◌≤◌, [], false, length, IfOk, IfSome, is_some};
ghost use Rattle.vi_bytes.specs.Spans.{IsProper, Has};
ghost use Rattle.vi_bytes.specs.Mappings.{mapping_at, with_mapping, without_span};
ghost use Rattle.vi_history.specs.Statuses.{any_mapping_meets, any_mapping_is_cut};
ghost use Rattle.vi_tree.specs.Trees.{cut_of};
ghost use Rattle.vi_device.specs.Tables.{empty_table, IsInRange};

use std::alloc::{AllocError, Global};
use std::marker::Model;
use vi_bytes::{Mapping, Span};
use vi_tree::{Steps, Tree};

/// The mappings of one domain, as a tree with room for `maps` mappings in all.
#[derive(Drop)]
pub struct Table {
    tree: Tree,
    maps: u32,
}

impl Model for Table {
    ghost use Rattle.vi_device.specs.Tables.{TableValue, Fits};

    ghost Value = { TableValue };

    ghost view = { λ t. record { mappings = t.tree.mappings; maps = t.maps } };

    ghost invariant = { λ t. Fits t.maps t.tree };
}

impl Table {
    /// No mapping, with room for `maps`.
    pub fn with_room(alloc: Global, maps: u32) -> Result<Table, AllocError>
        ensures { IfOk result (λ t. t ≡ empty_table maps) }
    {
        Ok(Table {
            tree: Tree::with_room(alloc, maps)?,
            maps,
        })
    }

    /// How many mappings there are.
    pub fn len(&self) -> u32
        ensures number { result ≡ length self.now.mappings }
        ensures most { length self.now.mappings ≤ self.now.maps }
    {
        let _ = self.maps;
        self.tree.len()
    }

    /// The mapping that has the address.
    pub fn find(&self, address: u64) -> Option<Mapping>
        ensures found { result ≡ mapping_at address self.now.mappings }
        ensures within { IfSome result (λ m. Has m.span address) }
        ensures ranges { IfSome result IsInRange }
    {
        self.tree.find(address, &mut Steps::new())
    }

    /// Whether a mapping shares an address with the span.
    pub fn meets(&self, span: &Span) -> bool
        requires { IsProper span.now }
        ensures { result ≡ any_mapping_meets span.now self.now.mappings }
    {
        self.tree.meeting(span, &mut Steps::new()).is_some()
    }

    /// Whether a mapping lies only in part in the span. Such a mapping has an end of the span.
    pub fn is_cut(&self, span: &Span) -> bool
        requires { IsProper span.now }
        ensures { result ≡ any_mapping_is_cut span.now self.now.mappings }
    {
        let _ = self.tree.len();
        self.reaches_out(span.first, span) || self.reaches_out(span.last, span)
    }

    // Whether the mapping that has the address lies not wholly in the span.
    fn reaches_out(&self, address: u64, span: &Span) -> bool
        ensures { result ≡ is_some (cut_of span.now (mapping_at address self.now.mappings)) }
    {
        match self.tree.find(address, &mut Steps::new()) {
            None => false,
            Some(m) => m.span.first < span.first || span.last < m.span.last,
        }
    }

    /// Adds a mapping, which shares no address with another.
    pub fn insert(&mut self, m: Mapping)
        requires proper { IsProper m.span }
        requires ranges { IsInRange m }
        requires free { any_mapping_meets m.span self.old.mappings ≡ false }
        requires room { length self.old.mappings < self.old.maps }
        ensures { self.new ≡ record self.old { mappings = with_mapping m self.old.mappings } }
    {
        let _ = self.tree.insert(m, &mut Steps::new());
    }

    /// Removes the mappings in the span, in which none lies only in part.
    pub fn remove(&mut self, span: &Span)
        requires proper { IsProper span.now }
        requires whole { any_mapping_is_cut span.now self.old.mappings ≡ false }
        ensures { self.new ≡ record self.old { mappings = without_span span.now self.old.mappings } }
    {
        let _ = self.tree.unmap(span, &mut Steps::new());
    }

    /// Removes all mappings.
    pub fn clear(&mut self)
        ensures { self.new ≡ empty_table self.old.maps }
    {
        let all = Span {
            first: 0,
            last: u64::MAX,
        };
        let _ = self.tree.unmap(&all, &mut Steps::new());
    }

    /// The tree of the mappings.
    pub fn tree(&self) -> &Tree
        ensures mappings { result.now.mappings ≡ self.now.mappings }
        ensures most { length self.now.mappings ≤ self.now.maps }
    {
        &self.tree
    }
}
