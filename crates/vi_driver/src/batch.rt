//! Batches: a line that isn't an `add` line, with the `add` lines directly before it.
ghost use Rattle.std.specs.Prelude.{◌≡◌, ◌==◌, ◌+◌, ◌≤◌, length, All};
ghost use Rattle.std.specs.List.{list_all};
ghost use Rattle.vi_driver.specs.Drivers.{IsSubmitted, batch_in, are_in_batch};

use crate::own::OwnLine;

/// Whether all these lines are `add` lines.
fn are_added(lines: &[OwnLine]) -> bool
    ensures { result ≡ list_all (λ l. l.add) lines.now }
{
    lines.iter().all(|line| line.is_add())
}

/// Whether a submitted line is in the batch of the next one: from it on, all submitted lines are `add` lines.
fn is_in_batch(lines: &[OwnLine], submitted: u32, line: u32) -> bool
    requires lines { submitted ≤ length lines.now }
    requires line { IsSubmitted submitted line }
    ensures { result ≡ (batch_in lines.now line == batch_in lines.now (submitted + 1)) }
{
    are_added(&lines[line as usize - 1..submitted as usize])
}

/// Whether these submitted lines are all in the batch of the next one.
pub fn are_in_batch(lines: &[OwnLine], submitted: u32, open_lines: &[u32]) -> bool
    requires lines { submitted ≤ length lines.now }
    requires submitted { All (IsSubmitted submitted) open_lines.now }
    ensures { result ≡ are_in_batch lines.now submitted open_lines.now }
{
    for line in open_lines {
        if !is_in_batch(lines, submitted, *line) {
            return false;
        }
    }
    true
}
