//! The end of a load script, and a summary, compared with their texts.
ghost use Rattle.std.specs.Prelude.{IfOk};
ghost use Rattle.vi_history.specs.Outcomes.{IsWellMade};

use crate::entries::add;
use std::alloc::{AllocError, Global};
use std::test::Fail;
use vi_bytes::Items;
use vi_history::Caller::{Back, Driver};
use vi_history::Kind::{Fault, Probed, Read, Status, Wrote};
use vi_history::Outcome;
use vi_make::{load_script_is_accepted, make, summary};

#[test]
fn makes_two_rounds(rt: HostRuntime) -> Result<(), Fail> {
    let script = make(rt.alloc(), 2)?;
    let text = script.as_slice();
    assert_eq!(rt; text.iter().filter(|byte| **byte == b'\n').count(), 51);
    assert!(rt; text.starts_with(b"memory 64\nqueue 64\ncache 8\nendpoint 1\n"));
    assert!(rt;
        text.ends_with(
            b"d3 map 4 1052672 1056767 200704 rw after b4.3\n\
            b4 write 1052672 00000007 after d3.4\n\
            b4 read 1052672 4\n\
            d3 unmap 4 1052672 1056767 after b4.5\n\
            b4 read 1052672 4 after d3.5\n"
        )
    );
    load_script_is_accepted();
    Ok(())
}

// Six answers, of which one is a fault.
fn six_answers(alloc: Global) -> Result<Outcome, AllocError>
    ensures { IfOk result IsWellMade }
{
    let mut all = Vec::new(alloc);
    add(alloc, &mut all, Driver(0), 1, 0, Status, 0, b"")?;
    add(alloc, &mut all, Driver(1), 1, 0, Status, 4, b"")?;
    add(alloc, &mut all, Driver(2), 1, 0, Probed, 0, &[1; 512])?;
    add(alloc, &mut all, Back(1), 1, 1, Wrote, 0, b"")?;
    add(alloc, &mut all, Back(2), 1, 1, Read, 0, &[0, 0, 1, 255])?;
    add(alloc, &mut all, Back(3), 1, 1, Fault, 2, b"")?;
    Ok(Outcome {
        entries: Items::from_vec(all),
        shown: Items::new(alloc),
        dropped: 1,
    })
}

#[test]
fn counts_each_kind_of_answer(rt: HostRuntime) -> Result<(), Fail> {
    let line = summary(rt.alloc(), 400, &six_answers(rt.alloc())?)?;
    let want = b"load 400 entries 6 ok 1 faults 1 sum 256\n";
    assert_eq!(rt; line.as_slice(), want.as_slice());
    Ok(())
}
