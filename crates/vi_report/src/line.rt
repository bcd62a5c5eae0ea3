//! Lines of a report, each added at the end of a text.
ghost use Rattle.std.specs.Prelude.{◌<◌, ◌^◌, All, OnOk};
ghost use Rattle.std.specs.List.{flat_map};
ghost use Rattle.hex.specs.Hex.{encode_lower};
ghost use Rattle.vi_report.specs.Texts.{Adds, head_line, name_text, answer_text, entry_line, entry_lines, faults_line, record_line};
ghost use Rattle.vi_report.specs.Types.{AreBytes, IsTypedMark, IsTypedEntry, IsTypedShown};

use std::alloc::{AllocError, Global};
use vi_history::{Caller, Entry, Kind, Mark, Shown};

/// Adds bytes as lower-case digits, two for each.
fn push_hex(alloc: Global, out: &mut String, bytes: &[u8]) -> Result<(), AllocError>
    ensures written { OnOk result (Adds out.old out.new (encode_lower bytes.now)) }
    ensures typed { OnOk result (AreBytes bytes.now) }
{
    let digits = hex::encode(alloc, bytes)?;
    out.push_str(digits.as_str())
}

/// Adds a call's name: `dJ.L` for a driver's line, `bE.L.P` for a part of a back end's line. An error
/// means out of memory.
pub fn push_name(out: &mut String, mark: Mark) -> Result<(), AllocError>
    ensures written { OnOk result (Adds out.old out.new
        (name_text mark.caller mark.line mark.part)) }
    ensures typed { OnOk result (IsTypedMark mark) }
{
    let Mark { line, part, .. } = mark;
    match mark.caller {
        Caller::Driver(number) => write!(out, "d{number}.{line}"),
        Caller::Back(endpoint) => write!(out, "b{endpoint}.{line}.{part}"),
    }
}

/// Adds an answer by its kind, as in an entry's line. An error means out of memory.
pub fn push_answer(alloc: Global, out: &mut String, entry: &Entry) -> Result<(), AllocError>
    ensures written { OnOk result (Adds out.old out.new
        (answer_text entry.now.mark.kind entry.now.mark.code entry.now.bytes)) }
    ensures typed { OnOk result (AreBytes entry.now.bytes) }
{
    let code = entry.mark.code;
    let bytes = entry.bytes.as_slice();
    match entry.mark.kind {
        Kind::Status => write!(out, "status {code}"),
        Kind::Probed => {
            write!(out, "probed {code} ")?;
            push_hex(alloc, out, bytes)
        }
        Kind::Nothing => out.push_str("nothing"),
        Kind::Set => out.push_str("set"),
        Kind::Read => {
            out.push_str("read ")?;
            push_hex(alloc, out, bytes)
        }
        Kind::Wrote => out.push_str("wrote"),
        Kind::Fault => write!(out, "fault {code}"),
    }
}

/// Adds the first line, for this many entries.
pub fn push_head(out: &mut String, count: usize) -> Result<(), AllocError>
    ensures { OnOk result (Adds out.old out.new (head_line count)) }
{
    writeln!(out, "viommu history {count}")
}

/// Adds the line of an entry with this number.
#[tactic(auto, unfolding(crate::specs::Texts::entry_line))]
pub fn push_entry(
    alloc: Global,
    out: &mut String,
    number: usize,
    entry: &Entry,
) -> Result<(), AllocError>
    ensures written { OnOk result (Adds out.old out.new (entry_line number entry.now)) }
    ensures typed { OnOk result (IsTypedEntry entry.now) }
{
    write!(out, "{number} ")?;
    push_name(out, entry.mark)?;
    out.push_str(" ")?;
    push_answer(alloc, out, entry)?;
    out.push_str("\n")
}

/// Adds the line with the counts of faults: all, those with a delivered record, the others.
pub fn push_faults(out: &mut String, shown: usize, dropped: u32) -> Result<(), AllocError>
    requires { shown < 2 ^ 32 }
    ensures { OnOk result (Adds out.old out.new (faults_line shown dropped)) }
{
    let faults = shown as u64 + u64::from(dropped);
    writeln!(out, "faults {faults} shown {shown} dropped {dropped}")
}

/// Adds the line of a delivered record.
pub fn push_record(alloc: Global, out: &mut String, delivered: &Shown) -> Result<(), AllocError>
    ensures written { OnOk result (Adds out.old out.new (record_line delivered.now)) }
    ensures typed { OnOk result (IsTypedShown delivered.now) }
{
    let number = delivered.entry;
    write!(out, "{number} ")?;
    push_hex(alloc, out, &delivered.bytes)?;
    out.push_str("\n")
}

/// Adds the lines of the entries, numbered from 1.
pub fn push_entries(alloc: Global, out: &mut String, entries: &[Entry]) -> Result<(), AllocError>
    ensures written { OnOk result (Adds out.old out.new (entry_lines 1 entries.now)) }
    ensures typed { OnOk result (All IsTypedEntry entries.now) }
{
    for (i, entry) in entries.iter().enumerate() {
        push_entry(alloc, out, i + 1, entry)?;
    }
    Ok(())
}

/// Adds the lines of the delivered records, in their order.
pub fn push_records(alloc: Global, out: &mut String, shown: &[Shown]) -> Result<(), AllocError>
    ensures written { OnOk result (Adds out.old out.new (flat_map record_line shown.now)) }
    ensures typed { OnOk result (All IsTypedShown shown.now) }
{
    for delivered in shown {
        push_record(alloc, out, delivered)?;
    }
    Ok(())
}
