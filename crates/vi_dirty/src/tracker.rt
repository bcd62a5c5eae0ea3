//! A state that follows a history, and the pages that were written.
ghost use Rattle.std.specs.Prelude.{◌≡◌, ◌<◌, ◌≤◌, [], All, IfOk, OnErr, OnOk, length};
ghost use Rattle.vi_bytes.specs.declared.span.TheConstants.{PAGE};
ghost use Rattle.vi_history.specs.Histories.{answer_of};
ghost use Rattle.vi_history.specs.Replies.{page_at, reply};
ghost use Rattle.vi_history.specs.Start.{start};
ghost use Rattle.vi_state.specs.Followed.{IsFollowed, IsFollowedSetup, IsMapDone};
ghost use Rattle.vi_dirty.specs.Tracked.{fed};

use crate::set::PageSet;
use std::alloc::{AllocError, Global};
use std::marker::Model;
use vi_history::{Call, Entry, Setup};
use vi_state::State;

/// A state that follows a history, and the pages that were written since they were last taken. Contracts see the state, the
/// pages, rising, and `spare`, how many more mappings there is room for.
#[derive(Drop)]
pub struct Tracker {
    state: State,
    written: PageSet,
}

impl Model for Tracker {
    ghost use Rattle.std.specs.Prelude.{◌≡◌};
    ghost use Rattle.vi_dirty.specs.Tracked.{TrackerValue};
    ghost use Rattle.vi_state.specs.Written.{page_set};

    ghost Value = { TrackerValue };

    ghost view = { λ t. record { one = t.state.one; set = t.written.pages; spare = t.state.spare } };

    ghost invariant = { λ t. (t.written.room ≡ t.state.one.dev.pages) × (page_set t.written.room t.written.pages ≡ t.written.pages) };
}

impl Tracker {
    /// The setup's device before the first call, with room for `maps` mappings in each of 16 domains. No page was written. An
    /// error means out of memory.
    #[tactic(auto, unfolding(vi_history::specs::Start::start))]
    pub fn new(alloc: Global, setup: &Setup, maps: u32) -> Result<Tracker, AllocError>
        requires { IsFollowedSetup setup.now }
        ensures { IfOk result (λ t. t ≡ record { one = start setup.now; set = []; spare = maps }) }
    {
        let written = PageSet::new(alloc, setup.memory)?;
        let state = State::new(alloc, setup, maps)?;
        Ok(Tracker { state, written })
    }

    /// Takes the effect of a call that was answered so. Takes no memory.
    pub fn feed(&mut self, call: &Call, entry: &Entry)
        requires call { IsFollowed self.old.one call.now }
        requires right { answer_of entry.now ≡ reply self.old.one call.now }
        requires room { IsMapDone call.now entry.now → 1 ≤ self.old.spare }
        ensures { self.new ≡ fed self.old call.now entry.now }
    {
        if let Some(page) = self.state.follow(call, entry) {
            self.written.insert(page);
        }
    }

    /// The bytes of a page of the memory. Takes no memory.
    pub fn page(&self, page: u32) -> &[u8]
        requires { page < self.now.one.dev.pages }
        ensures bytes { result.now ≡ page_at self.now.one.memory page }
        ensures whole { length result.now ≡ PAGE }
        ensures pages { length self.now.one.memory ≡ self.now.one.dev.pages }
    {
        self.state.page(page)
    }

    /// The pages that were written, rising; none is written then. An error means out of memory, and changes nothing.
    pub fn take(&mut self, alloc: Global) -> Result<Vec<u32>, AllocError>
        ensures pages { IfOk result (λ v. v.items ≡ self.old.set) }
        ensures below { All (λ p. p < self.old.one.dev.pages) self.old.set }
        ensures ok { OnOk result (self.new ≡ record self.old { set = [] }) }
        ensures err { OnErr result (self.new ≡ self.old) }
    {
        self.written.take(alloc)
    }
}
