//! Which pages were asked for, by places that pages share.
ghost use Rattle.std.specs.Prelude.{◌≡◌, ◌<◌};
ghost use Rattle.vi_grants.specs.Marks.{slot_of, is_marked, marked};

use std::alloc::{AllocError, Global};
use std::marker::Model;

/// The most places.
const MOST: usize = 8191;

/// Marks at the places of the pages that were asked for. Pages share places: one without a mark
/// wasn't asked for, and one with it may have been. A mark stays.
#[derive(Debug, Drop)]
pub struct Marks {
    places: Vec<bool>,
}

impl Model for Marks {
    ghost use Rattle.std.specs.Prelude.{◌<◌, List, Bool, length};

    ghost Value = { List Bool };

    ghost view = { λ m. m.places.items };

    ghost invariant = { λ m. 0 < length m.places.items };
}

impl Marks {
    /// No marks, with places for so many pages. An error means out of memory.
    pub fn for_pages(alloc: Global, pages: u32) -> Result<Marks, AllocError> {
        let count = (pages as usize * 2 + 1).min(MOST);
        let mut places = Vec::new(alloc);
        places.resize(count, false)?;
        Ok(Marks { places })
    }

    /// Whether the page's place has a mark.
    pub fn has(&self, page: u64) -> bool
        ensures { result ≡ is_marked page self.now }
    {
        self.places[slot_of(page, self.places.len())]
    }

    /// Marks the page's place.
    pub fn mark(&mut self, page: u64)
        ensures { self.new ≡ marked page self.old }
    {
        let slot = slot_of(page, self.places.len());
        self.places[slot] = true;
    }
}

// The page's place among so many.
fn slot_of(page: u64, places: usize) -> usize
    requires { 0 < places }
    ensures slot { result ≡ slot_of page places }
    ensures within { result < places }
{
    (page % places as u64) as usize
}
