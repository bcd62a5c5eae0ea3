//! What a trace is found to be.
ghost use Rattle.std.specs.Prelude.{◌≡◌, IfOk};
ghost use Rattle.vi_trace.specs.Texts.{rule_text, finding_text};

use std::alloc::{AllocError, Global};
use vi_bytes::Bytes;

/// A rule of the channel.
#[derive(Clone, Copy, Debug, PartialEq, Eq)]
pub enum Rule {
    /// What goes down is an Update or an Invalidate, and what comes up is an Ack.
    Frame,
    /// An Ack answers an open Invalidate.
    Ack,
    /// No page is updated while an Invalidate of it is open.
    Update,
    /// A page is used by a right that it was given and that no Ack has taken back (`use` in texts).
    Access,
}

impl Rule {
    /// The word for this rule.
    pub fn text(self) -> &'static str
        ensures { result.now ≡ rule_text self }
    {
        match self {
            Rule::Frame => "frame",
            Rule::Ack => "ack",
            Rule::Update => "update",
            Rule::Access => "use",
        }
    }
}

/// What a trace is found to be: it holds, or the first line at which a rule is broken, and its first rule.
#[derive(Clone, Copy, Debug, PartialEq, Eq)]
pub enum Finding {
    Held,
    Broken { line: u32, rule: Rule },
}

impl Finding {
    /// `held`, or `breaks L RULE`, with LF. An error means out of memory.
    #[tactic(auto, unfolding(crate::specs::Texts::finding_text))]
    pub fn text(&self, alloc: Global) -> Result<Bytes, AllocError>
        ensures { IfOk result (λ text. text ≡ finding_text self.now) }
    {
        let mut out = String::new(alloc);
        match self {
            Finding::Held => out.push_str("held\n")?,
            Finding::Broken { line, rule } => {
                let rule = rule.text();
                write!(out, "breaks {line} {rule}\n")?;
            }
        }
        Ok(Bytes::from_vec(out.into_bytes()))
    }
}
