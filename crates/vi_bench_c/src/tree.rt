//! A tree of mappings of one page each.
ghost use Rattle.std.specs.Prelude.{◌≡◌, ◌<◌, ◌≤◌, ◌^◌, length, IfOk};
ghost use Rattle.vi_bytes.specs.Spans.{IsProper};

use std::alloc::{AllocError, Global};
use vi_bytes::{Mapping, Span};
use vi_tree::{Steps, Tree};

/// How many mappings a tree holds at most.
const MOST: usize = 1 << 31;

/// Maps each page, finds each `finds` times and unmaps each `unmaps` times. The sum of the answers.
pub fn run(alloc: Global, pages: &[u64], finds: u32, unmaps: u32) -> Result<u64, AllocError> {
    if pages.len() > MOST {
        return Ok(0);
    }
    let mut tree = filled(alloc, pages)?;
    let mut sum = 0;
    for _round in 0..finds {
        sum = find_all(&tree, pages, sum);
    }
    for _round in 0..unmaps {
        sum = unmap_all(&mut tree, pages, sum);
    }
    Ok(sum)
}

/// The mapping of a page to the target 0.
fn mapping_of(page: u64) -> Mapping
    ensures { IsProper result.span }
{
    Mapping {
        span: span_of(page),
        target: 0,
        flags: 3,
    }
}

/// The addresses of a page.
fn span_of(page: u64) -> Span
    ensures { IsProper result }
{
    let first = (page % (1 << 52)) * 4096;
    Span {
        first,
        last: first + 4095,
    }
}

/// A tree with a mapping of each page.
fn filled(alloc: Global, pages: &[u64]) -> Result<Tree, AllocError>
    requires { length pages.now ≤ 2 ^ 31 }
{
    let mut tree = Tree::with_room(alloc, pages.len() as u32)?;
    for page in pages {
        let _ = tree.insert(mapping_of(*page), &mut Steps::new());
    }
    Ok(tree)
}

/// Adds the number of mappings that have a page's first address.
fn find_all(tree: &Tree, pages: &[u64], before: u64) -> u64 {
    let mut sum = before;
    for page in pages {
        if let Some(mapping) = tree.find(span_of(*page).first, &mut Steps::new()) {
            sum = sum.wrapping_add(mapping.span.last);
        }
    }
    sum
}

/// Adds the number of mappings that were removed.
fn unmap_all(tree: &mut Tree, pages: &[u64], before: u64) -> u64 {
    let mut sum = before;
    for page in pages {
        if let Ok(removed) = tree.unmap(&span_of(*page), &mut Steps::new()) {
            sum = sum.wrapping_add(u64::from(removed));
        }
    }
    sum
}
