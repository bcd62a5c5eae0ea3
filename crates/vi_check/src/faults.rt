//! The fault records of a report against those of its history.
ghost use Rattle.std.specs.Prelude.{◌≡◌, ◌-◌, ◌^◌, ◌<◌, ◌≤◌, IsTrue, length, nat_lt, slice_get};
ghost use Rattle.std.specs.List.{list_all, prefix_len};
ghost use Rattle.vi_check.specs.Faults.{IsRising, bad_faults, bad_record, same_shown, is_one, is_among, are_complete};

use vi_history::{Outcome, Shown};

/// Where the fault records of a report go wrong: the first record line, counted from 1, that isn't one of the history's
/// records or doesn't rise above the line before it, or the line behind the last, where one of the history's first
/// `most` records isn't shown or the counts don't add up.
pub fn bad_faults(most: u16, records: &[Shown], report: &Outcome) -> Option<u32>
    requires rising { IsRising 0 records.now }
    requires few { length report.now.shown < 2 ^ 32 - 1 }
    ensures { result ≡ bad_faults most records.now report.now }
{
    let shown = report.shown.as_slice();
    if let Some(at) = bad_record(records, shown) {
        return Some(at);
    }
    if are_complete(most, records, report) {
        None
    } else {
        Some(shown.len() as u32 + 1)
    }
}

// The first record line that isn't one of the history's records, or doesn't rise.
fn bad_record(records: &[Shown], shown: &[Shown]) -> Option<u32>
    requires rising { IsRising 0 records.now }
    requires few { length shown.now < 2 ^ 32 - 1 }
    ensures { result ≡ bad_record records.now 1 0 shown.now }
{
    let mut next = 0;
    for (at, line) in shown.iter().enumerate() {
        next += skipped(&records[next..], line.entry);
        if !stands_at(records, next, line) {
            return Some(at as u32 + 1);
        }
        next += 1;
    }
    None
}

// How many of the first records are of entries before this one.
fn skipped(records: &[Shown], entry: u32) -> usize
    ensures count { result ≡ prefix_len (λ r. nat_lt r.entry entry) records.now }
    ensures most { result ≤ length records.now }
{
    records.iter().take_while(|r| r.entry < entry).count()
}

// Whether the record at this place is the one of the record line.
fn stands_at(records: &[Shown], place: usize, line: &Shown) -> bool
    ensures result { result ≡ is_one line.now (slice_get records.now place) }
    ensures within { IsTrue result → place < length records.now }
{
    match records.get(place) {
        Some(found) => same_shown(found, line),
        None => false,
    }
}

// Whether two records are of one entry, with the same bytes.
fn same_shown(one: &Shown, other: &Shown) -> bool
    ensures { result ≡ same_shown one.now other.now }
{
    one.entry == other.entry && one.bytes.as_slice() == other.bytes.as_slice()
}

// Whether the record is one of these.
fn is_among(shown: &[Shown], wanted: &Shown) -> bool
    ensures { result ≡ is_among shown.now wanted.now }
{
    shown.iter().any(|x| same_shown(x, wanted))
}

// Whether each of these records is shown.
fn are_shown(shown: &[Shown], records: &[Shown]) -> bool
    ensures { result ≡ list_all (λ r. is_among shown.now r) records.now }
{
    records.iter().all(|r| is_among(shown, r))
}

// Whether the first `most` of the history's records are all shown, and those that aren't shown were counted as dropped.
fn are_complete(most: u16, records: &[Shown], report: &Outcome) -> bool
    ensures { result ≡ are_complete most records.now report.now }
{
    let shown = report.shown.as_slice();
    let first = records.len().min(most as usize);
    are_shown(shown, &records[..first])
        && shown.len() as u64 + u64::from(report.dropped) == records.len() as u64
}
