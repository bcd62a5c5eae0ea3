//! An answer of the device.
ghost use Rattle.std.specs.Prelude.{◌≡◌, ◌≤◌, length};
ghost use Rattle.vi_history.specs.Histories.{answer_of};
ghost use Rattle.vi_history.specs.Outcomes.{HasBytes};
ghost use Rattle.vi_history.specs.Replies.{status_answer, probed_answer, nothing_answer, set_answer, read_answer, wrote_answer, fault_answer};

use std::alloc::Global;
use std::marker::Model;
use vi_bytes::Bytes;
use vi_history::{Caller, Entry, Kind, Mark};

/// What a call is answered: what its entry says but for whose call it was.
#[derive(Drop)]
pub struct Answer {
    kind: Kind,
    code: u8,
    bytes: Bytes,
}

impl Model for Answer {
    ghost use Rattle.vi_history.specs.Outcomes.{HasBytes};
    ghost use Rattle.vi_history.specs.Replies as replies;

    ghost Value = { replies.Answer };

    ghost view = { λ a. record { kind = a.kind; code = a.code; bytes = a.bytes } };

    ghost invariant = { λ a. HasBytes a.kind a.code a.bytes };
}

impl Answer {
    /// A request other than PROBE has this status.
    pub fn status(alloc: Global, code: u8) -> Answer
        ensures { result ≡ status_answer code }
    {
        Answer {
            kind: Kind::Status,
            code,
            bytes: Bytes::new(alloc),
        }
    }

    /// A PROBE has this status and these property bytes.
    pub fn probed(code: u8, bytes: Bytes) -> Answer
        requires { length bytes ≡ 512 }
        ensures { result ≡ probed_answer code bytes }
    {
        Answer {
            kind: Kind::Probed,
            code,
            bytes,
        }
    }

    /// Nothing can be answered.
    pub fn nothing(alloc: Global) -> Answer
        ensures { result ≡ nothing_answer }
    {
        Answer {
            kind: Kind::Nothing,
            code: 0,
            bytes: Bytes::new(alloc),
        }
    }

    /// The bypass field was set.
    pub fn set(alloc: Global) -> Answer
        ensures { result ≡ set_answer }
    {
        Answer {
            kind: Kind::Set,
            code: 0,
            bytes: Bytes::new(alloc),
        }
    }

    /// These bytes were read.
    pub fn read(bytes: Bytes) -> Answer
        requires some { 1 ≤ length bytes }
        requires most { length bytes ≤ 4096 }
        ensures { result ≡ read_answer bytes }
    {
        Answer {
            kind: Kind::Read,
            code: 0,
            bytes,
        }
    }

    /// The bytes were written.
    pub fn wrote(alloc: Global) -> Answer
        ensures { result ≡ wrote_answer }
    {
        Answer {
            kind: Kind::Wrote,
            code: 0,
            bytes: Bytes::new(alloc),
        }
    }

    /// The access faulted for this reason.
    pub fn fault(alloc: Global, reason: u8) -> Answer
        ensures { result ≡ fault_answer reason }
    {
        Answer {
            kind: Kind::Fault,
            code: reason,
            bytes: Bytes::new(alloc),
        }
    }

    /// The entry of a history that says whose call was answered so.
    pub fn entry(self, caller: Caller, line: u32, part: u32) -> Entry
        ensures answer { answer_of result ≡ self }
        ensures caller { result.mark.caller ≡ caller }
        ensures line { result.mark.line ≡ line }
        ensures part { result.mark.part ≡ part }
        ensures bytes { HasBytes result.mark.kind result.mark.code result.bytes }
    {
        let Answer { kind, code, bytes } = self;
        Entry {
            mark: Mark {
                caller,
                line,
                part,
                kind,
                code,
            },
            bytes,
        }
    }
}
