//! Rings in the hands of a driver, a device and a stranger.
ghost use Rattle.std.specs.Prelude.{◌≡◌, ◌+◌, ◌<◌, ◌≤◌, length};

use std::alloc::{AllocError, Global};
use std::process::Abort;
use std::test::Fail;
use vi_vring::{Break, Chain, Full, Head, Popped, Ring};

fn write(area: &mut [u8], at: usize, byte: u8) {
    if at < area.len() {
        area[at] = byte;
    }
}

// What the stranger writes: the available entry, flags and next of descriptor 0, flags of
// descriptor 1, byte 4 of the address and byte 0 of the length of descriptor 0.
#[derive(Clone, Copy)]
struct Written {
    entry: u8,
    flags: u8,
    next: u8,
    second_flags: u8,
    high: u8,
    len: u8,
}

const NOTHING: Written = Written {
    entry: 0,
    flags: 0,
    next: 0,
    second_flags: 0,
    high: 0,
    len: 0,
};

// With an available index of 1.
fn write_all(area: &mut [u8], written: Written) {
    write(area, 258, 1);
    write(area, 260, written.entry);
    write(area, 12, written.flags);
    write(area, 14, written.next);
    write(area, 28, written.second_flags);
    write(area, 4, written.high);
    write(area, 8, written.len);
}

// The used index and the first used element.
fn used_bytes(area: &[u8]) -> [u8; 10] {
    let mut bytes = [0; 10];
    if area.len() >= 308 {
        bytes.copy_from_slice(&area[298..308]);
    }
    bytes
}

fn popped_twice(ring: &mut Ring, written: Written) -> ([Popped; 2], [u8; 10]) {
    write_all(ring.area(), written);
    let popped = [ring.pop(), ring.pop()];
    (popped, used_bytes(ring.area()))
}

fn popped_where(alloc: Global, written: Written) -> Result<([Popped; 2], [u8; 10]), AllocError> {
    let mut ring = Ring::build(alloc, 16, 64, 64)?;
    Ok(popped_twice(&mut ring, written))
}

#[test]
fn breaks_are_found(rt: HostRuntime) -> Result<(), Fail> {
    let rows = [
        (
            Written {
                entry: 16,
                ..NOTHING
            },
            Break::Outside,
        ),
        (
            Written {
                flags: 1,
                ..NOTHING
            },
            Break::Loop,
        ),
        (
            Written {
                flags: 4,
                ..NOTHING
            },
            Break::Indirect,
        ),
        (
            Written {
                flags: 3,
                next: 1,
                ..NOTHING
            },
            Break::Mixed,
        ),
        (
            Written {
                high: 1,
                len: 1,
                ..NOTHING
            },
            Break::Memory,
        ),
    ];
    for (written, fault) in rows {
        let popped = [Popped::Broken(fault), Popped::Empty];
        let used = [1, 0, written.entry, 0, 0, 0, 0, 0, 0, 0];
        assert_eq!(rt; popped_where(rt.alloc(), written)?, (popped, used));
    }
    Ok(())
}

// A request of three bytes is popped and answered. It is collected only then.
fn served(rt: &impl Abort, ring: &mut Ring) -> Option<Head>
    requires reading { ring.old.reading ≡ 64 }
    requires writing { ring.old.writing ≡ 64 }
    ensures { ring.new.writing ≡ 64 }
{
    assert_eq!(rt; ring.pop(), Popped::Empty);
    let head = ring.add(&[1, 2, 3], 4).ok()?;
    let Popped::Chain(chain) = ring.pop() else {
        return None;
    };
    let want = Chain {
        head: head.0,
        read: 3,
        write: 4,
    };
    assert_eq!(rt; chain, want);
    let mut request = [0; 3];
    ring.readable(&chain, &mut request);
    assert_eq!(rt; request, [1, 2, 3]);
    assert_eq!(rt; ring.collect(head, &mut [9; 64]), None);
    ring.push(chain, &[7, 8]);
    Some(head)
}

// By another head, by this one, and by this one again.
fn collected(ring: &mut Ring, head: Head) -> ([Option<u32>; 3], [u8; 3])
    requires { ring.old.writing ≡ 64 }
{
    let mut answer = [9; 64];
    let lens = [
        ring.collect(Head(head.0 ^ 1), &mut answer),
        ring.collect(head, &mut answer),
        ring.collect(head, &mut answer),
    ];
    (lens, [answer[0], answer[1], answer[2]])
}

#[test]
fn a_request_goes_round(rt: HostRuntime) -> Result<(), Fail> {
    let mut ring = Ring::build(rt.alloc(), 16, 64, 64)?;
    let head = served(&rt, &mut ring).ok_or("a chain")?;
    let answer = ([None, Some(2), None], [7, 8, 9]);
    assert_eq!(rt; collected(&mut ring, head), answer);
    Ok(())
}

// The lengths of the buffers stay.
fn added(ring: &mut Ring, read: &[u8], write: u32) -> Result<(), Full>
    requires reading { ring.old.reading ≡ 8 }
    requires writing { ring.old.writing ≡ 8 }
    requires read { length read.now ≤ 8 }
    requires write { write ≤ 8 }
    requires some { 0 < length read.now + write }
    ensures reading { ring.new.reading ≡ 8 }
    ensures writing { ring.new.writing ≡ 8 }
{
    match ring.add(read, write) {
        Ok(_) => Ok(()),
        Err(full) => Err(full),
    }
}

fn seven_added(ring: &mut Ring) -> [Result<(), Full>; 7]
    requires reading { ring.old.reading ≡ 8 }
    requires writing { ring.old.writing ≡ 8 }
    ensures reading { ring.new.reading ≡ 8 }
    ensures writing { ring.new.writing ≡ 8 }
{
    [
        added(ring, &[1], 1),
        added(ring, &[1], 1),
        added(ring, &[1], 1),
        added(ring, &[1], 1),
        added(ring, &[1], 1),
        added(ring, &[1], 1),
        added(ring, &[1], 1),
    ]
}

// Of one and two descriptors, until none is free.
fn last_added(ring: &mut Ring) -> [Result<(), Full>; 4]
    requires reading { ring.old.reading ≡ 8 }
    requires writing { ring.old.writing ≡ 8 }
{
    [
        added(ring, &[1], 0),
        added(ring, &[1], 1),
        added(ring, &[], 1),
        added(ring, &[], 1),
    ]
}

#[test]
fn a_full_ring_takes_no_chain(rt: HostRuntime) -> Result<(), Fail> {
    let mut ring = Ring::build(rt.alloc(), 16, 8, 8)?;
    assert_eq!(rt; seven_added(&mut ring), [Ok(()); 7]);
    let last = [Ok(()), Err(Full), Ok(()), Err(Full)];
    assert_eq!(rt; last_added(&mut ring), last);
    Ok(())
}

// A request of one byte is popped, and answered by one.
fn answered(ring: &mut Ring, request: u8, answer: u8) -> Option<Head>
    requires reading { ring.old.reading ≡ 8 }
    requires writing { ring.old.writing ≡ 8 }
    ensures reading { ring.new.reading ≡ 8 }
    ensures writing { ring.new.writing ≡ 8 }
{
    let head = ring.add(&[request], 1).ok()?;
    match ring.pop() {
        Popped::Chain(chain) if chain.write == 1 => {
            ring.push(chain, &[answer]);
            Some(head)
        }
        _ => None,
    }
}

fn first_byte(ring: &mut Ring, head: Head) -> (Option<u32>, u8)
    requires { ring.old.writing ≡ 8 }
    ensures { ring.new.writing ≡ 8 }
{
    let mut answer = [0; 8];
    let len = ring.collect(head, &mut answer);
    (len, answer[0])
}

// The second chain is collected first.
fn collected_out_of_order(ring: &mut Ring) -> Option<[(Option<u32>, u8); 2]>
    requires reading { ring.old.reading ≡ 8 }
    requires writing { ring.old.writing ≡ 8 }
{
    let first = answered(ring, 1, 11)?;
    let second = answered(ring, 2, 22)?;
    Some([first_byte(ring, second), first_byte(ring, first)])
}

#[test]
fn chains_are_collected_out_of_order(rt: HostRuntime) -> Result<(), Fail> {
    let mut ring = Ring::build(rt.alloc(), 16, 8, 8)?;
    let answers = Some([(Some(1), 22), (Some(1), 11)]);
    assert_eq!(rt; collected_out_of_order(&mut ring), answers);
    Ok(())
}

// A used element that the device never returned, with a length above all buffers.
fn forge(area: &mut [u8]) {
    write(area, 298, 1);
    write(area, 303, 255);
}

fn after_a_forgery(ring: &mut Ring) -> Option<(Option<u32>, Result<(), Full>)>
    requires reading { ring.old.reading ≡ 8 }
    requires writing { ring.old.writing ≡ 8 }
{
    let head = ring.add(&[1], 1).ok()?;
    forge(ring.area());
    let len = ring.collect(head, &mut [0; 8]);
    Some((len, added(ring, &[1], 1)))
}

#[test]
fn a_stranger_stops_no_call(rt: HostRuntime) -> Result<(), Fail> {
    let mut ring = Ring::build(rt.alloc(), 16, 8, 8)?;
    assert_eq!(rt; after_a_forgery(&mut ring), Some((None, Ok(()))));
    Ok(())
}
