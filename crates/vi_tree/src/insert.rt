//! Linking a node into a tree.
ghost use Rattle.std.specs.Prelude.{◌≡◌, ◌+◌, ◌*◌, ◌^◌, ◌<◌, ◌≤◌, Some};
ghost use Rattle.slab.specs.Slab.{get};
ghost use Rattle.vi_tree.specs.Shapes.{Leaf, link_height, node_of};
ghost use Rattle.vi_tree.specs.Held.{StandsWithout, Links, SameRoom};

use crate::Steps;
use crate::balance::balance;
use crate::node::{Child, Link, Node};
use crate::nodes::Nodes;
use vi_bytes::Mapping;

/// Links the node under the key, which has the mapping and no node below it, into the tree. Answers
/// the link to the top. Looks at 6 nodes or fewer for each level of the tree.
pub fn insert_at(nodes: &mut Nodes, link: Link, key: usize, m: &Mapping, steps: &mut Steps) -> Link
    requires leaf { get nodes.old key ≡ Some (node_of Leaf m.now Leaf) }
    requires stands { StandsWithout nodes.old link key }
    requires counts { steps.old + 6 * link_height link < 2 ^ 64 }
    ensures links { Links nodes.old nodes.new key m.now link result }
    ensures high { link_height result ≤ link_height link + 1 }
    ensures room { SameRoom nodes.old nodes.new }
    ensures rises { steps.old ≤ steps.new }
    ensures counted { steps.new ≤ steps.old + 6 * link_height link }
{
    match link {
        None => Some(Child { key, height: 1 }),
        Some(child) => {
            let node = nodes.read(child.key, steps);
            if m.span.first < node.mapping.span.first {
                let left = insert_at(nodes, node.left, key, m, steps);
                balance(nodes, child.key, Node { left, ..node }, steps)
            } else {
                let right = insert_at(nodes, node.right, key, m, steps);
                balance(nodes, child.key, Node { right, ..node }, steps)
            }
        }
    }
}
