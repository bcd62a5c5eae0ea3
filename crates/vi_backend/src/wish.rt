//! What a back end wishes, and what an access comes to.

use vi_history::Mark;
use vi_iotlb::Frame;

/// What a back end wishes to do next.
#[derive(Clone, Copy, Debug, PartialEq, Eq)]
pub enum Wish {
    /// Its current part is on this page of the memory.
    Access(u64),
    /// It asks for a translation by this frame, a `Miss` or an `AccessFail`.
    Ask(Frame),
    /// It takes a frame, if there is one.
    Receive,
    /// Its lines are finished. It still takes a frame, if there is one.
    Rest,
}

/// An access of a page: its entry's mark, and where its bytes stand on the page, of which a write has none.
#[derive(Clone, Copy, Debug, PartialEq, Eq)]
pub struct Done {
    pub mark: Mark,
    /// The offset in the page.
    pub from: u32,
    /// How many bytes the entry has: 0 for a write.
    pub len: u32,
}
