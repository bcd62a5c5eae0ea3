//! Taking a node out of a tree.
ghost use Rattle.std.specs.Prelude.{◌≡◌, ◌+◌, ◌*◌, ◌^◌, ◌<◌, ◌≤◌, Some};
ghost use Rattle.vi_tree.specs.Shapes.{link_height};
ghost use Rattle.vi_tree.specs.Held.{Stands, StandBeside, Removes, LosesAlike, Merges, DetachesLowest, SameRoom};

use crate::Steps;
use crate::balance::balance;
use crate::node::{Child, Link, Node};
use crate::nodes::Nodes;
use vi_bytes::Mapping;

// The lowest mapping of a tree with the key of its node, and the tree without it.
#[derive(Clone, Copy)]
struct Detached {
    key: usize,
    mapping: Mapping,
    rest: Link,
}

/// Takes the node of the mapping that begins at the address out. Answers the link to the top of the
/// rest. Looks at 6 nodes or fewer for each level of the tree, and at one more.
pub fn remove_at(nodes: &mut Nodes, link: Link, first: u64, steps: &mut Steps) -> Link
    requires stands { Stands nodes.old link }
    requires counts { steps.old + (6 * link_height link + 1) < 2 ^ 64 }
    ensures removes { Removes nodes.old nodes.new first link result }
    ensures high { link_height result ≤ link_height link }
    ensures len { LosesAlike nodes.old nodes.new first link }
    ensures capacity { nodes.new.capacity ≡ nodes.old.capacity }
    ensures rises { steps.old ≤ steps.new }
    ensures counted { steps.new ≤ steps.old + (6 * link_height link + 1) }
{
    match link {
        None => None,
        Some(child) => {
            let node = nodes.read(child.key, steps);
            if first < node.mapping.span.first {
                let left = remove_at(nodes, node.left, first, steps);
                balance(nodes, child.key, Node { left, ..node }, steps)
            } else if node.mapping.span.first < first {
                let right = remove_at(nodes, node.right, first, steps);
                balance(nodes, child.key, Node { right, ..node }, steps)
            } else {
                nodes.take(child.key, steps);
                merge(nodes, node.left, node.right, steps)
            }
        }
    }
}

// One tree of two that stood below one node.
fn merge(nodes: &mut Nodes, left: Link, right: Link, steps: &mut Steps) -> Link
    requires beside { StandBeside nodes.old left right }
    requires left_low { link_height left < 2 ^ 62 }
    requires counts { steps.old + (6 * link_height right + 5) < 2 ^ 64 }
    ensures merges { Merges nodes.old nodes.new left right result }
    ensures room { SameRoom nodes.old nodes.new }
    ensures rises { steps.old ≤ steps.new }
    ensures counted { steps.new ≤ steps.old + (6 * link_height right + 5) }
{
    match right {
        None => left,
        Some(child) => {
            let lowest = detach_lowest(nodes, child, steps);
            let top = Node {
                mapping: lowest.mapping,
                left,
                right: lowest.rest,
            };
            balance(nodes, lowest.key, top, steps)
        }
    }
}

// Unlinks the node of the lowest mapping from the tree, and leaves it in the slab.
fn detach_lowest(nodes: &mut Nodes, child: Child, steps: &mut Steps) -> Detached
    requires stands { Stands nodes.old (Some child) }
    requires counts { steps.old + 6 * child.height < 2 ^ 64 }
    ensures detaches { DetachesLowest nodes.old nodes.new child result.key result.mapping result.rest }
    ensures high { link_height result.rest ≤ child.height }
    ensures room { SameRoom nodes.old nodes.new }
    ensures rises { steps.old ≤ steps.new }
    ensures counted { steps.new ≤ steps.old + 6 * child.height }
{
    let node = nodes.read(child.key, steps);
    match node.left {
        None => Detached {
            key: child.key,
            mapping: node.mapping,
            rest: node.right,
        },
        Some(left) => {
            let lowest = detach_lowest(nodes, left, steps);
            let node = Node {
                left: lowest.rest,
                ..node
            };
            let rest = balance(nodes, child.key, node, steps);
            Detached { rest, ..lowest }
        }
    }
}
