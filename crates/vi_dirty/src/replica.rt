//! A copy of a memory.
ghost use Rattle.std.specs.Prelude.{◌≡◌, ◌<◌, [], All, IfOk, OnErr, OnOk, length, replicate};
ghost use Rattle.vi_bytes.specs.declared.span.TheConstants.{PAGE};
ghost use Rattle.vi_history.specs.Replies.{page_at};
ghost use Rattle.vi_history.specs.Start.{zero_page};
ghost use Rattle.vi_dirty.specs.Followed.{ReplicasFollow};
ghost use Rattle.vi_dirty.specs.Tracked.{AreEqualBut};

use crate::tracker::Tracker;
use std::alloc::{AllocError, Global};
use std::marker::Model;
use vi_bytes::PAGE;
use vi_memory::{Page, zero_pages};

/// A copy of a memory. Contracts see its bytes page by page.
#[derive(Drop)]
pub struct Replica {
    pages: Vec<Page>,
}

impl Model for Replica {
    ghost use Rattle.std.specs.Prelude.{List, ℕ};

    ghost Value = { List (List ℕ) };

    ghost view = { λ r. r.pages.items };
}

impl Replica {
    /// So many pages of zeros, as a memory is before the first call. An error means out of memory.
    #[tactic(auto, unfolding(vi_history::specs::Start::zero_page))]
    pub fn zero(alloc: Global, pages: u32) -> Result<Replica, AllocError>
        ensures { IfOk result (λ r. r ≡ replicate pages zero_page) }
    {
        let pages = zero_pages(alloc, pages)?;
        Ok(Replica { pages })
    }

    /// The bytes of a page. Takes no memory.
    pub fn page(&self, page: u32) -> &[u8]
        requires { page < length self.now }
        ensures { result.now ≡ page_at self.now page }
    {
        self.pages[page as usize].read(0, PAGE as u32)
    }

    /// Takes the tracker's pages and copies their bytes: then the replica has the bytes of the memory. The pages were those in
    /// which both differed. An error means out of memory, and changes neither.
    pub fn follow(&mut self, alloc: Global, tracker: &mut Tracker) -> Result<Vec<u32>, AllocError>
        requires pages { length self.old ≡ length tracker.old.one.memory }
        requires others { AreEqualBut tracker.old.set self.old tracker.old.one.memory }
        ensures pages { IfOk result (λ v. v.items ≡ tracker.old.set) }
        ensures equal { OnOk result (self.new ≡ tracker.old.one.memory) }
        ensures taken { OnOk result (tracker.new ≡ record tracker.old { set = [] }) }
        ensures self_err { OnErr result (self.new ≡ self.old) }
        ensures tracker_err { OnErr result (tracker.new ≡ tracker.old) }
    {
        let pages = tracker.take(alloc)?;
        copy(&mut self.pages, tracker, pages.as_slice());
        Ok(pages)
    }
}

// Copies the bytes of these pages, in which the replica differs from the tracker's memory.
fn copy(replica: &mut Vec<Page>, tracker: &Tracker, pages: &[u32])
    requires length { length replica.old.items ≡ length tracker.now.one.memory }
    requires below { All (λ p. p < tracker.now.one.dev.pages) pages.now }
    requires others { AreEqualBut pages.now replica.old.items tracker.now.one.memory }
    ensures { replica.new.items ≡ tracker.now.one.memory }
{
    for page in pages {
        let bytes = tracker.page(*page);
        copy_page(&mut replica[*page as usize], bytes);
    }
}

// Gives a page these bytes.
fn copy_page(page: &mut Page, bytes: &[u8])
    requires { length bytes.now ≡ PAGE }
    ensures { page.new ≡ bytes.now }
{
    page.write(0, bytes);
}

/// A replica that follows has the memory of the one-thread device after each call: the pages that the tracker has are all those
/// in which the memory has changed.
pub fn replicas_follow()
    ensures { ReplicasFollow }
{}
