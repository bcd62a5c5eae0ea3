//! The first wishes of drivers whose first line is of each kind.
use crate::scripts::script_of;
use std::alloc::Global;
use std::test::Fail;
use vi_driver::{Driver, DriverWish};
use vi_lines::Script;

/// The number of a driver that has done nothing, what it wishes, and whether a call of it is open.
fn first_wish(alloc: Global, script: &Script, number: u8) -> Option<(u8, DriverWish, bool)> {
    match Driver::new(alloc, script, number) {
        Ok(driver) => Some((driver.number(), driver.next(), driver.open())),
        Err(_) => None,
    }
}

#[test]
fn drivers_begin_with_their_first_lines(rt: HostRuntime) -> Result<(), Fail> {
    let text =
        b"endpoint 7\nd1 raw 0102 4\nd0 add attach 1 7\nd0 probe 7\nd2 raw - 9 after d1.1\nd3 bypass on";
    let script = script_of(rt.alloc(), text)?;
    let cases = [
        (0, DriverWish::Submit),
        (1, DriverWish::Submit),
        (2, DriverWish::Await),
        (3, DriverWish::Submit),
        (4, DriverWish::Rest),
    ];
    for (number, wish) in cases {
        let want = Some((number, wish, false));
        assert_eq!(rt; first_wish(rt.alloc(), &script, number), want);
    }
    Ok(())
}
