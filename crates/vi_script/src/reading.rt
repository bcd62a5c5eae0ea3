//! Scripts are read from texts.
ghost use Rattle.std.specs.Prelude.{◌≡◌, ◌^◌, ◌-◌, ◌<◌, ◌≤◌, length, OnOk, IfOk, MatchResult, Ok};
ghost use Rattle.vi_script.specs.Faults.{Reads};
ghost use Rattle.vi_lines.specs.Fields.{LinesFit, HasFields};
ghost use Rattle.vi_script.specs.Forms.{form_of};
ghost use Rattle.vi_script.specs.Texts.{judge, judge_words, script};
ghost use Rattle.vi_lines.specs.Calls.{HasTransfers};
ghost use Rattle.vi_script.specs.Parsing.{Faults};
ghost use Rattle.vi_lines.specs.Valid.{IsValid};

use crate::draft::{Draft, MOST_LINES};
use crate::fault::{BadKind, Refusal, ScriptFault};
use crate::form::form;
use crate::statement::statement;
use std::alloc::Global;
use vi_lines::Script;
use vi_words::{Lines, Words, has_bad_byte, says_nothing};

/// The script that a text is, or its first bad line. The text has fewer than 2^32 - 1 bytes.
pub fn parse(alloc: Global, bytes: &[u8]) -> Result<Script, ScriptFault>
    requires { length bytes.now < 2 ^ 32 - 1 }
    ensures read { MatchResult result (λ s. script bytes.now ≡ Ok s) (λ e. Faults e (script bytes.now)) }
    ensures valid { IfOk result IsValid }
    ensures transfers { IfOk result HasTransfers }
    ensures fields { IfOk result HasFields }
{
    let mut draft = Draft::new(alloc);
    let mut lines = Lines::of(bytes);
    let mut number = 0;
    while let Some(line) = lines.take() {
        number += 1;
        match next(alloc, draft, number, line) {
            Ok(more) => draft = more,
            Err(refusal) => return Err(refusal.at(number)),
        }
    }
    Ok(draft.into_script(alloc)?)
}

/// What is said behind the line of this number, counted from 1, which stands below what was said.
#[tactic(auto, unfolding(crate::specs::Texts::judge))]
fn next(alloc: Global, draft: Draft, number: u32, line: &[u8]) -> Result<Draft, Refusal>
    requires lines { length draft.lines < number }
    requires fields { LinesFit draft.lines }
    ensures next { Reads (λ said. said) result (judge draft number line.now) }
    ensures few { OnOk result (number ≤ 10000) }
    ensures lines { IfOk result (λ said. length said.lines ≤ number) }
    ensures fields { IfOk result (λ said. LinesFit said.lines) }
{
    if has_bad_byte(line) {
        return Err(Refusal::Bad(BadKind::Byte));
    }
    let words = Words::of(line);
    if !says_nothing(words.again()) {
        return said(alloc, draft, number, words);
    }
    if number > MOST_LINES {
        return Err(Refusal::Bad(BadKind::Limit));
    }
    Ok(draft)
}

/// What is said behind the line of these words and this number.
fn said(alloc: Global, draft: Draft, number: u32, words: Words) -> Result<Draft, Refusal>
    requires lines { length draft.lines < number }
    requires fields { LinesFit draft.lines }
    ensures next { Reads (λ said. said) result (judge_words draft number (form_of words.entry)) }
    ensures few { OnOk result (number ≤ 10000) }
    ensures lines { IfOk result (λ said. length said.lines ≤ number) }
    ensures fields { IfOk result (λ said. LinesFit said.lines) }
{
    let form = form(alloc, words)?;
    if draft.is_late(&form) {
        return Err(Refusal::Bad(BadKind::Late));
    }
    let statement = statement(alloc, form)?;
    draft.judge(number, &statement)?;
    Ok(draft.with(alloc, statement)?)
}
