//! The input of `check`: a script, the line `report`, and a report.
ghost use Rattle.std.specs.Prelude.{◌≡◌, ◌≤◌, ◌+◌, MatchOption, MatchResult, IfOk, IsErr, Ok, None, length};
ghost use Rattle.vi_lines.specs.Fields.{HasFields};
ghost use Rattle.vi_script.specs.Parsing.{Faults};
ghost use Rattle.vi_lines.specs.Valid.{IsValid};
ghost use Rattle.vi_words.specs.Words.{lines_of_text};
ghost use Rattle.vi_script.specs.Texts.{script};
ghost use Rattle.vi_commands.specs.Judged.{lines_above, judged_report, judged_script, without_report};
ghost use Rattle.vi_commands.specs.Cuts.{IsCutAt};
ghost use Rattle.vi_commands.specs.declared.top.TheConstants.{CHECK_LIMIT};

use std::alloc::Global;
use vi_lines::Script;
use vi_script::{BadKind, ScriptFault};
use vi_words::Lines;

/// The line between the script and the report.
const REPORT: &[u8] = b"report";

/// What stands above the line `report`, and what stands below it.
#[derive(Debug, Drop)]
pub struct Parts<'a> {
    pub script: &'a [u8],
    pub report: &'a [u8],
}

/// The input cut at its first line that is exactly `report`, or `None` where there is none.
pub fn cut(input: &[u8]) -> Option<Parts<'_>>
    requires { length input.now ≤ CHECK_LIMIT }
    ensures { MatchOption result (lines_above input.now ≡ None) (λ parts. IsCutAt input.now parts.script.now parts.report.now) }
{
    let mut at = 0;
    let mut lines = Lines::of(input);
    while let Some(line) = lines.take() {
        if line == REPORT {
            return Some(Parts {
                script: &input[..at],
                report: &input[input.len().min(at + REPORT.len() + 1)..],
            });
        }
        at += line.len() + 1;
    }
    None
}

/// The report, which is empty where no line `report` is there.
pub fn report_in(input: &[u8]) -> &[u8]
    requires { length input.now ≤ CHECK_LIMIT }
    ensures report { result.now ≡ judged_report input.now }
    ensures within { length result.now ≤ length input.now }
{
    match cut(input) {
        Some(parts) => parts.report,
        None => &input[input.len()..],
    }
}

/// The script above the line `report`, or why there is none. Without such a line a script is refused at
/// the line after its last.
pub fn judged(alloc: Global, input: &[u8]) -> Result<Script, ScriptFault>
    requires { length input.now ≤ CHECK_LIMIT }
    ensures read { MatchResult result (λ s. judged_script input.now ≡ Ok s) (λ e. Faults e (judged_script input.now)) }
    ensures valid { IfOk result IsValid }
    ensures fields { IfOk result HasFields }
{
    match cut(input) {
        Some(parts) => vi_script::parse(alloc, parts.script),
        None => unreported(alloc, input),
    }
}

/// A script without a line `report`, which is refused for that, or why the text is no script.
#[tactic(auto, using(crate::proofs::JudgedLemmas::faults_without))]
fn unreported(alloc: Global, input: &[u8]) -> Result<Script, ScriptFault>
    requires { length input.now ≤ CHECK_LIMIT }
    ensures read { MatchResult result (λ s. without_report (length (lines_of_text input.now)) (script input.now) ≡ Ok s)
        (λ e. Faults e (without_report (length (lines_of_text input.now)) (script input.now))) }
    ensures none { IsErr result }
{
    vi_script::parse(alloc, input)?;
    Err(ScriptFault::Bad {
        line: count_lines(input) + 1,
        kind: BadKind::Report,
    })
}

/// How many lines the text has.
fn count_lines(text: &[u8]) -> u32
    requires { length text.now ≤ CHECK_LIMIT }
    ensures { result ≡ length (lines_of_text text.now) }
{
    let mut count = 0;
    let mut lines = Lines::of(text);
    while lines.take().is_some() {
        count += 1;
    }
    count
}
