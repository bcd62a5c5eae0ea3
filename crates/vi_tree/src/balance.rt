//! Keeping the two sides of a node nearly equally high.
ghost use Rattle.std.specs.Prelude.{◌≡◌, ◌+◌, ◌^◌, ◌<◌, ◌≤◌, max, Some};
ghost use Rattle.slab.specs.Slab.{get, ContainsKey, Updates};
ghost use Rattle.vi_tree.specs.Shapes.{link_height};
ghost use Rattle.vi_tree.specs.Moves.{turned_right, turned_left, lifted_left, lifted_right, raised_left, raised_right, balanced};
ghost use Rattle.vi_tree.specs.Held.{HasSides, Rebuilds, SameRoom};

use crate::Steps;
use crate::node::{Child, Link, Node, height_of};
use crate::nodes::Nodes;

/// Puts the node under the key and raises its higher side where that is more than one higher.
/// Answers the link to the top. Looks at 5 nodes or fewer.
pub fn balance(nodes: &mut Nodes, key: usize, node: Node, steps: &mut Steps) -> Link
    requires there { ContainsKey nodes.old key }
    requires sides { HasSides nodes.old key node }
    requires left_low { link_height node.left < 2 ^ 62 }
    requires right_low { link_height node.right < 2 ^ 62 }
    requires counts { steps.old + 5 < 2 ^ 64 }
    ensures becomes { Rebuilds balanced nodes.old nodes.new key node result }
    ensures room { SameRoom nodes.old nodes.new }
    ensures rises { steps.old ≤ steps.new }
    ensures counted { steps.new ≤ steps.old + 5 }
{
    let (left, right) = (height_of(node.left), height_of(node.right));
    if right + 1 < left {
        raise_left(nodes, key, node, steps)
    } else if left + 1 < right {
        raise_right(nodes, key, node, steps)
    } else {
        place(nodes, key, node, steps)
    }
}

// Puts the node under the key, as it is.
fn place(nodes: &mut Nodes, key: usize, node: Node, steps: &mut Steps) -> Link
    requires there { ContainsKey nodes.old key }
    requires left_low { link_height node.left < 2 ^ 63 }
    requires right_low { link_height node.right < 2 ^ 63 }
    requires counts { steps.old + 1 < 2 ^ 64 }
    ensures link { result ≡ Some (record { key = key; height = max (link_height node.left) (link_height node.right) + 1 }) }
    ensures updates { Updates nodes.old nodes.new key (Some node) }
    ensures room { SameRoom nodes.old nodes.new }
    ensures counted { steps.new ≡ steps.old + 1 }
{
    nodes.change(key, node, steps);
    let height = height_of(node.left).max(height_of(node.right)) + 1;
    Some(Child { key, height })
}

// Raises the left side, or its inner side where that is the higher one.
fn raise_left(nodes: &mut Nodes, key: usize, node: Node, steps: &mut Steps) -> Link
    requires there { ContainsKey nodes.old key }
    requires sides { HasSides nodes.old key node }
    requires left_low { link_height node.left < 2 ^ 62 }
    requires right_low { link_height node.right < 2 ^ 62 }
    requires counts { steps.old + 5 < 2 ^ 64 }
    ensures becomes { Rebuilds raised_left nodes.old nodes.new key node result }
    ensures room { SameRoom nodes.old nodes.new }
    ensures rises { steps.old ≤ steps.new }
    ensures counted { steps.new ≤ steps.old + 5 }
{
    match node.left {
        None => place(nodes, key, node, steps),
        Some(side) => {
            let left = nodes.read(side.key, steps);
            if height_of(left.left) < height_of(left.right) {
                lift_left(nodes, key, node, side, left, steps)
            } else {
                turn_right(nodes, key, node, side, left, steps)
            }
        }
    }
}

// Makes the left side's top, which was read, the top.
fn turn_right(
    nodes: &mut Nodes,
    key: usize,
    node: Node,
    side: Child,
    left: Node,
    steps: &mut Steps,
) -> Link
    requires there { ContainsKey nodes.old key }
    requires sides { HasSides nodes.old key node }
    requires leads { node.left ≡ Some side }
    requires read { get nodes.old side.key ≡ Some left }
    requires left_low { link_height node.left < 2 ^ 62 }
    requires right_low { link_height node.right < 2 ^ 62 }
    requires counts { steps.old + 2 < 2 ^ 64 }
    ensures becomes { Rebuilds turned_right nodes.old nodes.new key node result }
    ensures room { SameRoom nodes.old nodes.new }
    ensures counted { steps.new ≡ steps.old + 2 }
{
    let inner = Node {
        left: left.right,
        ..node
    };
    let right = place(nodes, key, inner, steps);
    place(nodes, side.key, Node { right, ..left }, steps)
}

// Makes the top of the left side's inner side the top.
fn lift_left(
    nodes: &mut Nodes,
    key: usize,
    node: Node,
    side: Child,
    left: Node,
    steps: &mut Steps,
) -> Link
    requires there { ContainsKey nodes.old key }
    requires sides { HasSides nodes.old key node }
    requires leads { node.left ≡ Some side }
    requires read { get nodes.old side.key ≡ Some left }
    requires left_low { link_height node.left < 2 ^ 62 }
    requires right_low { link_height node.right < 2 ^ 62 }
    requires counts { steps.old + 4 < 2 ^ 64 }
    ensures becomes { Rebuilds lifted_left nodes.old nodes.new key node result }
    ensures room { SameRoom nodes.old nodes.new }
    ensures rises { steps.old ≤ steps.new }
    ensures counted { steps.new ≤ steps.old + 4 }
{
    match left.right {
        None => turn_right(nodes, key, node, side, left, steps),
        Some(inner) => {
            let top = nodes.read(inner.key, steps);
            let lower = Node {
                right: top.left,
                ..left
            };
            let lower = place(nodes, side.key, lower, steps);
            let higher = Node {
                left: top.right,
                ..node
            };
            let higher = place(nodes, key, higher, steps);
            let top = Node {
                left: lower,
                right: higher,
                ..top
            };
            place(nodes, inner.key, top, steps)
        }
    }
}

// Raises the right side, or its inner side where that is the higher one.
fn raise_right(nodes: &mut Nodes, key: usize, node: Node, steps: &mut Steps) -> Link
    requires there { ContainsKey nodes.old key }
    requires sides { HasSides nodes.old key node }
    requires left_low { link_height node.left < 2 ^ 62 }
    requires right_low { link_height node.right < 2 ^ 62 }
    requires counts { steps.old + 5 < 2 ^ 64 }
    ensures becomes { Rebuilds raised_right nodes.old nodes.new key node result }
    ensures room { SameRoom nodes.old nodes.new }
    ensures rises { steps.old ≤ steps.new }
    ensures counted { steps.new ≤ steps.old + 5 }
{
    match node.right {
        None => place(nodes, key, node, steps),
        Some(side) => {
            let right = nodes.read(side.key, steps);
            if height_of(right.right) < height_of(right.left) {
                lift_right(nodes, key, node, side, right, steps)
            } else {
                turn_left(nodes, key, node, side, right, steps)
            }
        }
    }
}

// Makes the right side's top, which was read, the top.
fn turn_left(
    nodes: &mut Nodes,
    key: usize,
    node: Node,
    side: Child,
    right: Node,
    steps: &mut Steps,
) -> Link
    requires there { ContainsKey nodes.old key }
    requires sides { HasSides nodes.old key node }
    requires leads { node.right ≡ Some side }
    requires read { get nodes.old side.key ≡ Some right }
    requires left_low { link_height node.left < 2 ^ 62 }
    requires right_low { link_height node.right < 2 ^ 62 }
    requires counts { steps.old + 2 < 2 ^ 64 }
    ensures becomes { Rebuilds turned_left nodes.old nodes.new key node result }
    ensures room { SameRoom nodes.old nodes.new }
    ensures counted { steps.new ≡ steps.old + 2 }
{
    let inner = Node {
        right: right.left,
        ..node
    };
    let left = place(nodes, key, inner, steps);
    place(nodes, side.key, Node { left, ..right }, steps)
}

// Makes the top of the right side's inner side the top.
fn lift_right(
    nodes: &mut Nodes,
    key: usize,
    node: Node,
    side: Child,
    right: Node,
    steps: &mut Steps,
) -> Link
    requires there { ContainsKey nodes.old key }
    requires sides { HasSides nodes.old key node }
    requires leads { node.right ≡ Some side }
    requires read { get nodes.old side.key ≡ Some right }
    requires left_low { link_height node.left < 2 ^ 62 }
    requires right_low { link_height node.right < 2 ^ 62 }
    requires counts { steps.old + 4 < 2 ^ 64 }
    ensures becomes { Rebuilds lifted_right nodes.old nodes.new key node result }
    ensures room { SameRoom nodes.old nodes.new }
    ensures rises { steps.old ≤ steps.new }
    ensures counted { steps.new ≤ steps.old + 4 }
{
    match right.left {
        None => turn_left(nodes, key, node, side, right, steps),
        Some(inner) => {
            let top = nodes.read(inner.key, steps);
            let lower = Node {
                right: top.left,
                ..node
            };
            let lower = place(nodes, key, lower, steps);
            let higher = Node {
                left: top.right,
                ..right
            };
            let higher = place(nodes, side.key, higher, steps);
            let top = Node {
                left: lower,
                right: higher,
                ..top
            };
            place(nodes, inner.key, top, steps)
        }
    }
}
