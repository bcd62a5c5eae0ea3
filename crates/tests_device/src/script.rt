//! The calls of a script, and refusals as they are printed.
ghost use Rattle.vi_lines.specs.Calls.{HasTransfers};

use std::alloc::Global;
use std::test::Fail;
use vi_history::Caller;
use vi_lines::Script;
use vi_script::{BadKind, ScriptFault, parse};

// How many turns the script has, how many lines the driver 0, whether the endpoint 7 has a line, and whether that line has one part
// and two.
fn asked(alloc: Global, script: &Script) -> (usize, u32, [bool; 3])
    requires { HasTransfers script.now }
{
    let back = Caller::Back(7);
    let calls = [
        script.line(back, 1).is_some(),
        matches!(script.call(alloc, back, 1, 1), Ok(Some(_))),
        matches!(script.call(alloc, back, 1, 2), Ok(None)),
    ];
    (script.turns.len(), script.count(Caller::Driver(0)), calls)
}

#[test]
fn lines_have_calls(rt: HostRuntime) -> Result<(), Fail> {
    let text =
        b"endpoint 7\nreserve 7 msi 0x1000 0x1fff\nturns d0 dev b7\nd0 add attach 1 7\nd0 raw - 4\nb7 read 0 1 after d0.1";
    let script = parse(rt.alloc(), text)?;
    assert_eq!(rt; asked(rt.alloc(), &script), (3, 2, [true, true, true]));
    Ok(())
}

#[test]
fn faults_have_texts(rt: HostRuntime) -> Result<(), Fail> {
    let fault = parse(rt.alloc(), b"memory 1\nqueue 17").err();
    assert_eq!(rt;
        fault,
        Some(ScriptFault::Bad {
            line: 2,
            kind: BadKind::Limit,
        })
    );
    let text = match fault {
        Some(fault) => format!(in rt.alloc(); "{fault}")?,
        None => String::new(rt.alloc()),
    };
    assert_eq!(rt; text.as_str(), "bad script line 2: limit");
    let memory = ScriptFault::OutOfMemory;
    assert_eq!(rt;
        format!(in rt.alloc(); "{memory}")?.as_str(),
        "out of memory"
    );
    Ok(())
}
