//! A set of pages.
ghost use Rattle.std.specs.Prelude.{◌≡◌, ℕ, ◌<◌, ◌++◌, [], ◌∷◌, false, All, IfOk, OnErr, OnOk, get_or, length, replicate};
ghost use Rattle.vi_dirty.specs.Marks.{one_if, times};
ghost use Rattle.vi_state.specs.Written.{page_set};

use std::alloc::{AllocError, Global};
use std::marker::Model;

/// A set of pages below a number, which contracts see as that number and the pages, rising.
#[derive(Drop)]
pub struct PageSet {
    marks: Vec<bool>,
    // The marked pages in the order of their marking, with room for all: so the others are never looked at.
    order: Vec<u32>,
}

impl Model for PageSet {
    ghost use Rattle.std.specs.Prelude.{length, vec_capacity};
    ghost use Rattle.vi_dirty.specs.Marks.{IsMarked, PageSetValue, marked};

    ghost Value = { PageSetValue };

    ghost view = { λ s. record { room = length s.marks.items; pages = marked s.marks.items } };

    ghost invariant = { λ s. IsMarked s.marks.items s.order.items (vec_capacity s.order) };
}

impl PageSet {
    /// No page, of this many. An error means out of memory.
    pub fn new(alloc: Global, room: u32) -> Result<PageSet, AllocError>
        ensures { IfOk result (λ s. s ≡ record { room = room; pages = [] }) }
    {
        let count = room as usize;
        let marks = unmarked(alloc, count)?;
        let order = Vec::with_capacity(alloc, count)?;
        Ok(PageSet { marks, order })
    }

    /// Puts a page into the set. Takes no memory.
    pub fn insert(&mut self, page: u32)
        requires { page < self.old.room }
        ensures { self.new ≡ record self.old { pages = page_set self.old.room (self.old.pages ++ page ∷ []) } }
    {
        if !self.marks[page as usize] {
            self.marks[page as usize] = true;
            self.order.push_reserved(page);
        }
    }

    /// Puts pages into the set. Takes no memory.
    pub fn extend(&mut self, pages: &[u32])
        requires { All (λ p. p < self.old.room) pages.now }
        ensures { self.new ≡ record self.old { pages = page_set self.old.room (self.old.pages ++ pages.now) } }
    {
        // What holds of a set's parts is known once one of them is read.
        let _marks = &self.marks;
        for page in pages {
            self.insert(*page);
        }
    }

    /// The pages of the set, rising; it is empty then. An error means out of memory, and changes nothing.
    pub fn take(&mut self, alloc: Global) -> Result<Vec<u32>, AllocError>
        ensures pages { IfOk result (λ v. v.items ≡ self.old.pages) }
        ensures set { page_set self.old.room self.old.pages ≡ self.old.pages }
        ensures ok { OnOk result (self.new ≡ record self.old { pages = [] }) }
        ensures err { OnErr result (self.new ≡ self.old) }
    {
        let mut pages = Vec::from_slice(alloc, self.order.as_slice())?;
        pages.sort_unstable();
        unmark(&mut self.marks, self.order.as_slice());
        self.order.clear();
        Ok(pages)
    }
}

// So many marks, none set.
fn unmarked(alloc: Global, count: usize) -> Result<Vec<bool>, AllocError>
    ensures { IfOk result (λ marks. marks.items ≡ replicate count false) }
{
    vec![in alloc; false; count]
}

// Takes the marks of the marked pages away.
fn unmark(marks: &mut Vec<bool>, pages: &[u32])
    requires { (page : ℕ) → times page pages.now ≡ one_if (get_or marks.old.items page false) }
    ensures none { (page : ℕ) → get_or marks.new.items page false ≡ false }
    ensures length { length marks.new.items ≡ length marks.old.items }
{
    for page in pages {
        marks[*page as usize] = false;
    }
}
