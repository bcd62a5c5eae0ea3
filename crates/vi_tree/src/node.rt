//! A node of the tree and the links to those below it.
ghost use Rattle.std.specs.Prelude.{◌≡◌};
ghost use Rattle.vi_tree.specs.Shapes.{link_height};

use vi_bytes::Mapping;

/// A node below another: its key, and the height of the tree of which it is the top. A node alone
/// has height 1.
#[derive(Clone, Copy)]
pub struct Child {
    pub key: usize,
    pub height: u64,
}

/// The tree on one side of a node, or `None` where there is none.
pub type Link = Option<Child>;

/// A mapping, with the lower mappings to its left and the higher ones to its right.
#[derive(Clone, Copy)]
pub struct Node {
    pub mapping: Mapping,
    pub left: Link,
    pub right: Link,
}

/// The height of the tree to which the link leads, 0 where there is none.
pub fn height_of(link: Link) -> u64
    ensures { result ≡ link_height link }
{
    match link {
        Some(child) => child.height,
        None => 0,
    }
}
