//! Looking for mappings.
ghost use Rattle.std.specs.Prelude.{◌≡◌, ◌+◌, ◌^◌, ◌<◌, ◌≤◌};
ghost use Rattle.vi_bytes.specs.Spans.{covers};
ghost use Rattle.vi_tree.specs.Shapes.{link_height};
ghost use Rattle.vi_tree.specs.Held.{Stands, FindsLowest};

use crate::Steps;
use crate::node::Link;
use crate::nodes::Nodes;
use vi_bytes::{Mapping, Span};

/// Whether the mapping lies in the span. Unlike the span's own test it has no condition.
pub fn lies_in(m: &Mapping, span: &Span) -> bool
    ensures { result ≡ covers span.now m.now.span }
{
    span.first <= m.span.first && m.span.last <= span.last
}

/// The lowest mapping that shares an address with the span. Looks at one node for each level of the
/// tree or at fewer.
pub fn lowest_meeting(nodes: &Nodes, link: Link, span: &Span, steps: &mut Steps) -> Option<Mapping>
    requires stands { Stands nodes.now link }
    requires counts { steps.old + link_height link < 2 ^ 64 }
    ensures found { FindsLowest nodes.now link span.now result }
    ensures rises { steps.old ≤ steps.new }
    ensures counted { steps.new ≤ steps.old + link_height link }
{
    let mut link = link;
    let mut found = None;
    while let Some(child) = link {
        let node = nodes.read(child.key, steps);
        if span.last < node.mapping.span.first {
            link = node.left;
        } else if node.mapping.span.last < span.first {
            link = node.right;
        } else if node.mapping.span.first <= span.first {
            // All lower mappings end before this one begins.
            return Some(node.mapping);
        } else {
            found = Some(node.mapping);
            link = node.left;
        }
    }
    found
}
