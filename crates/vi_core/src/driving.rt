//! A driver's turn.
ghost use Rattle.std.specs.Prelude.{◌≡◌, ◌<◌, true, None, Some};
ghost use Rattle.vi_driver.specs.Drivers.{next_line, next_parcel, continues_batch};
ghost use Rattle.vi_lines.specs.declared.line.Line.{Line};
ghost use Rattle.vi_core.specs.DriverTurns.{HasDriveRoom, HasLineRoom, IsDriversTurn, IsCollected, IsLeft, IsSubmission, first_of, line_in};

use crate::Turned;
use crate::posted::are_posted;
use vi_control::{Collected, Control};
use vi_driver::{Driver, DriverWish};
use vi_history::Caller;
use vi_lines::Await;

/// A driver's turn: it collects its answered line of the lowest number and posts how many of its first lines are
/// finished; or else it submits its next line, where its open lines are all of that line's batch and what that line
/// awaits is posted. It takes no memory.
pub fn drive(driver: &mut Driver, control: &mut Control) -> Turned
    requires { HasDriveRoom control.old.plan control.old.state driver.old }
    ensures turn { IsDriversTurn control.old control.new driver.old driver.new result }
    ensures plan { control.new.plan ≡ control.old.plan }
{
    if collect(driver, control) {
        return Turned::Moved;
    }
    advance(driver, control)
}

// The turn of a driver without an answered line.
fn advance(driver: &mut Driver, control: &mut Control) -> Turned
    requires room { HasDriveRoom control.old.plan control.old.state driver.old }
    requires none { first_of control.old.state driver.old ≡ None }
    ensures turn { IsDriversTurn control.old control.new driver.old driver.new result }
    ensures plan { control.new.plan ≡ control.old.plan }
{
    match driver.next() {
        DriverWish::Rest => Turned::Rest,
        DriverWish::Collect => Turned::Waiting,
        DriverWish::Submit => {
            submit(driver, control);
            Turned::Moved
        }
        DriverWish::Await => {
            if !are_posted(control, driver.awaits()) {
                return Turned::Waiting;
            }
            submit(driver, control);
            Turned::Moved
        }
    }
}

// The answered line of the lowest number is collected, if there is one. A driver without open lines has none, and need
// not look.
fn collect(driver: &mut Driver, control: &mut Control) -> bool
    requires { HasDriveRoom control.old.plan control.old.state driver.old }
    ensures { IsCollected (first_of control.old.state driver.old) result control.old control.new driver.old driver.new }
{
    if !driver.open() {
        return false;
    }
    collect_first(driver, control)
}

// The answered line of the lowest number is closed, if there is one, and the number of the driver's first lines that are
// all finished is posted.
fn collect_first(driver: &mut Driver, control: &mut Control) -> bool
    requires { HasDriveRoom control.old.plan control.old.state driver.old }
    ensures { IsCollected (first_of control.old.state driver.old) result control.old control.new driver.old driver.new }
{
    let number = driver.number();
    let mut out = [0; 1024];
    match line_of(control.collect(number, &mut out)) {
        None => false,
        Some(line) => {
            let finished = driver.collected(line);
            control.post(Caller::Driver(number), finished);
            true
        }
    }
}

fn line_of(collected: Collected) -> Option<u32>
    ensures { result ≡ line_in collected }
{
    match collected {
        Collected::NotYet => None,
        Collected::Used { line, .. } | Collected::Set { line } => Some(line),
    }
}

// The next line is submitted.
fn submit(driver: &mut Driver, control: &mut Control)
    requires number { driver.old.number < 8 }
    requires batch { continues_batch driver.old ≡ true }
    requires room { (l : Line) × (next_line driver.old ≡ Some l) × HasLineRoom control.old.state driver.old l }
    ensures { IsSubmission (next_parcel driver.old) control.old control.new driver.old driver.new }
{
    leave(driver, control);
    driver.submitted();
}

// The next line is left for the device: a request in the queue, or a setting.
fn leave(driver: &Driver, control: &mut Control)
    requires number { driver.now.number < 8 }
    requires room { (l : Line) × (next_line driver.now ≡ Some l) × HasLineRoom control.old.state driver.now l }
    ensures { IsLeft (next_parcel driver.now) control.old control.new driver.now }
{
    let number = driver.number();
    let line = driver.line();
    match driver.setting() {
        Some(on) => control.set_bypass(number, line, on),
        None => control.submit(number, line, driver.readable(), driver.writable()),
    }
}
