//! A queue of 16 buffers, with faults and a reader.
ghost use Rattle.std.specs.Prelude.{◌≡◌, ◌+◌, ◌≤◌, length};
ghost use Rattle.vi_events.specs.Value.{no_events};

use std::test::Fail;
use vi_events::EventQueue;
use vi_history::Shown;

// A record that begins with this byte.
fn record(first: u8) -> [u8; 24] {
    let mut bytes = [7; 24];
    bytes[0] = first;
    bytes
}

// What is taken before two records come, and after.
fn taken(queue: &mut EventQueue) -> [Option<[u8; 24]>; 4]
    requires { queue.old ≡ record { buffers = 16; events = no_events 2 } }
{
    let before = queue.take();
    queue.note(&record(1));
    queue.note(&record(2));
    [before, queue.take(), queue.take(), queue.take()]
}

#[test]
fn records_are_taken_in_the_order_of_their_faults(rt: HostRuntime) -> Result<(), Fail> {
    let mut queue = EventQueue::build(rt.alloc(), 16, 2)?;
    let records = [None, Some(record(1)), Some(record(2)), None];
    assert_eq!(rt; taken(&mut queue), records);
    let shown = [
        Shown {
            entry: 1,
            bytes: record(1),
        },
        Shown {
            entry: 2,
            bytes: record(2),
        },
    ];
    assert!(rt;
        queue.shown() == shown.as_slice(),
        "a record that was taken is still shown"
    );
    assert_eq!(rt; queue.dropped(), 0);
    Ok(())
}

// One record more than there are buffers.
fn overfill(queue: &mut EventQueue)
    requires { queue.old ≡ record { buffers = 16; events = no_events 20 } }
    ensures room { 2 ≤ queue.new.events.room }
    ensures few { length queue.new.events.shown + queue.new.events.dropped ≤ 17 }
{
    'faults: for fault in 0..17 {
        queue.note(&record(fault));
    }
}

// The oldest is read, and two more come.
fn used_again(queue: &mut EventQueue) -> Option<[u8; 24]>
    requires room { 2 ≤ queue.old.events.room }
    requires few { length queue.old.events.shown + queue.old.events.dropped ≤ 17 }
{
    let oldest = queue.take();
    queue.note(&record(17));
    queue.note(&record(18));
    oldest
}

#[test]
fn records_are_dropped_where_no_buffer_is_free(rt: HostRuntime) -> Result<(), Fail> {
    let mut queue = EventQueue::build(rt.alloc(), 16, 20)?;
    overfill(&mut queue);
    assert_eq!(rt; (queue.shown().len(), queue.dropped()), (16, 1));
    assert_eq!(rt; used_again(&mut queue), Some(record(0)));
    let last = Some(Shown {
        entry: 18,
        bytes: record(17),
    });
    assert_eq!(rt;
        (queue.dropped(), queue.shown().last().copied()),
        (2, last),
        "a buffer that is given back is used again, once"
    );
    Ok(())
}

#[test]
fn the_ring_is_lent(rt: HostRuntime) -> Result<(), Fail> {
    let queue = EventQueue::build(rt.alloc(), 32, 0)?;
    let _ = queue.queue();
    assert!(rt; queue.shown().is_empty());
    Ok(())
}
