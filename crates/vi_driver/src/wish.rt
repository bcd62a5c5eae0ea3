//! What a driver wants to do next.

/// What a driver wants to do next.
#[derive(Clone, Copy, Debug, PartialEq, Eq)]
pub enum DriverWish {
    /// Submit the next line, which awaits no lines.
    Submit,
    /// Collect an answer: a call is open, and no line of its batch is left to submit.
    Collect,
    /// Submit the next line as soon as the lines that it awaits are finished.
    Await,
    /// Nothing: no line is left and no call is open.
    Rest,
}
