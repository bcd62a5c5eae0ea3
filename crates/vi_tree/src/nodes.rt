//! The nodes of a tree in a slab, which only this module sees. Each look at a node is counted.
ghost use Rattle.std.specs.Prelude.{◌≡◌, ◌+◌, ◌^◌, ◌<◌, ◌≤◌, [], Some, None, IfOk, OnOk, OnErr};
ghost use Rattle.slab.specs.Slab.{get, slab_len, ContainsKey, HasRoomFor, Updates};
ghost use Rattle.vi_tree.specs.Held.{SameRoom};

use crate::Steps;
use crate::node::Node;
use slab::Slab;
use std::alloc::{AllocError, Global};
use std::marker::Model;

/// Nodes, each under a key. Contracts see a slab.
#[derive(Drop)]
pub struct Nodes {
    slab: Slab<Node>,
}

impl Model for Nodes {
    ghost use Rattle.slab.specs.Slab.{Slab as Slots};
    ghost use Rattle.vi_tree.specs.declared.node.Node.{Node as NodeValue};

    ghost Value = { Slots NodeValue };

    ghost view = { λ n. n.slab };
}

impl Nodes {
    /// No node, with room for `n`.
    pub fn with_room(alloc: Global, n: u32) -> Result<Nodes, AllocError>
        ensures empty { IfOk result (λ nodes. nodes.slots ≡ []) }
        ensures room { IfOk result (λ nodes. n ≤ nodes.capacity) }
    {
        Ok(Nodes {
            slab: Slab::with_capacity(alloc, n as usize)?,
        })
    }

    /// Makes room for `n` more nodes.
    pub fn reserve(&mut self, n: u32) -> Result<(), AllocError>
        ensures room { OnOk result (HasRoomFor self.new n) }
        ensures capacity { self.old.capacity ≤ self.new.capacity }
        ensures kept { self.new ≡ record self.old { capacity = self.new.capacity } }
    {
        self.slab.reserve(n as usize)
    }

    /// The number of nodes.
    pub fn len(&self) -> usize
        ensures { result ≡ slab_len self.now }
    {
        self.slab.len()
    }

    /// The node under the key.
    pub fn read(&self, key: usize, steps: &mut Steps) -> Node
        requires there { ContainsKey self.now key }
        requires counts { steps.old + 1 < 2 ^ 64 }
        ensures node { get self.now key ≡ Some result }
        ensures counted { steps.new ≡ steps.old + 1 }
    {
        steps.tick();
        match self.slab.get(key) {
            Some(node) => *node,
            None => unreachable!(),
        }
    }

    /// Puts the node in place of the one under the key.
    pub fn change(&mut self, key: usize, node: Node, steps: &mut Steps)
        requires there { ContainsKey self.old key }
        requires counts { steps.old + 1 < 2 ^ 64 }
        ensures updates { Updates self.old self.new key (Some node) }
        ensures room { SameRoom self.old self.new }
        ensures counted { steps.new ≡ steps.old + 1 }
    {
        steps.tick();
        self.slab[key] = node;
    }

    /// Keeps the node under a key that was free. Takes no memory.
    pub fn put(&mut self, node: Node, steps: &mut Steps) -> usize
        requires room { HasRoomFor self.old 1 }
        requires counts { steps.old + 1 < 2 ^ 64 }
        ensures free { get self.old result ≡ None }
        ensures updates { Updates self.old self.new result (Some node) }
        ensures len { slab_len self.new ≡ slab_len self.old + 1 }
        ensures capacity { self.new.capacity ≡ self.old.capacity }
        ensures counted { steps.new ≡ steps.old + 1 }
    {
        steps.tick();
        self.slab.insert_reserved(node)
    }

    /// Takes the node under the key out.
    pub fn take(&mut self, key: usize, steps: &mut Steps) -> Node
        requires there { ContainsKey self.old key }
        requires counts { steps.old + 1 < 2 ^ 64 }
        ensures node { get self.old key ≡ Some result }
        ensures updates { Updates self.old self.new key None }
        ensures len { slab_len self.new + 1 ≡ slab_len self.old }
        ensures capacity { self.new.capacity ≡ self.old.capacity }
        ensures counted { steps.new ≡ steps.old + 1 }
    {
        steps.tick();
        match self.slab.try_remove(key) {
            Some(node) => node,
            None => unreachable!(),
        }
    }
}
