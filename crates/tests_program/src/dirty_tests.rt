//! `dirty K W`: the pages that a run wrote, for each K entries and for all.
use crate::run_tests::ended_with;
use crate::tests::ran;
use std::alloc::Global;
use std::sync::Wait;
use std::test::Fail;
use std::thread::Threads;
use vi_commands::Status;
use vi_run::Free;

// A write and a read of one page.
const ONE_PAGE: &str = "memory 1
endpoint 7
d0 attach 1 7
d0 map 1 0x1000 0x1fff 0x0 rw
b7 write 0x1000 61626364 after d0.2
b7 read 0x1000 4
";

const ONE_PAGE_REPORT: &str = "viommu history 4
1 d0.1 status 0
2 d0.2 status 0
3 b7.1.1 wrote
4 b7.2.1 read 61626364
faults 0 shown 0 dropped 0
end
";

// A write across two pages, one that is translated nowhere, one through what an UNMAP removed, and one that passes.
const PAGES: &str = "memory 4
endpoint 7
endpoint 9
d0 attach 1 7
d0 map 1 0x1000 0x2fff 0x2000 rw
d0 bypass on
b7 write 0x1ffe 0102030405 after d0.3
b9 write 0x0 ff after b7.1
d0 unmap 1 0x1000 0x2fff after b9.1
b7 write 0x1000 aa after d0.4
b9 write 0x3000 bb after b7.2
";

const PAGES_REPORT: &str = "viommu history 9
1 d0.1 status 0
2 d0.2 status 0
3 d0.3 set
4 b7.1.1 wrote
5 b7.1.2 wrote
6 b9.1.1 wrote
7 d0.4 status 0
8 b7.2.1 fault 2
9 b9.2.1 wrote
faults 1 shown 1 dropped 0
8 020000000201000007000000000000000010000000000000
end
";

const EMPTY_REPORT: &str = "viommu history 0
faults 0 shown 0 dropped 0
end
";

/// Whether the command writes the report and then these pages, with any number of workers.
fn writes<R: Threads + Wait + Sync>(
    rt: &R,
    alloc: Global,
    every: &str,
    script: &str,
    report: &str,
    pages: &str,
) -> Result<bool, Fail> {
    for workers in [" 1", " 2", " 16"] {
        let mut words = String::from_str(alloc, "dirty ")?;
        words.push_str(every)?;
        words.push_str(workers)?;
        let (status, taken) = ended_with(
            rt,
            alloc,
            words.as_str(),
            script.as_bytes(),
            &Free,
            &[],
            &[],
        )?;
        let mut text = String::from_str(alloc, report)?;
        text.push_str(pages)?;
        if !matches!(status, Status::Ok) || taken.as_slice() != text.as_bytes() {
            return Ok(false);
        }
    }
    Ok(true)
}

#[test]
fn written_pages_stand_below_the_report(rt: HostRuntime) -> Result<(), Fail> {
    let alloc = rt.alloc();
    let cases = [
        (
            "3",
            ONE_PAGE,
            ONE_PAGE_REPORT,
            "rounds 2\nround 1 1 0\nround 2 0\ndirty 1 0\n",
        ),
        (
            "3",
            PAGES,
            PAGES_REPORT,
            "rounds 3\nround 1 0\nround 2 3 0 2 3\nround 3 1 3\ndirty 3 0 2 3\n",
        ),
        (
            "4",
            PAGES,
            PAGES_REPORT,
            "rounds 3\nround 1 1 2\nround 2 2 0 3\nround 3 1 3\ndirty 3 0 2 3\n",
        ),
        (
            "10000",
            PAGES,
            PAGES_REPORT,
            "rounds 1\nround 1 3 0 2 3\ndirty 3 0 2 3\n",
        ),
        ("1", "memory 1\n", EMPTY_REPORT, "rounds 0\ndirty 0\n"),
    ];
    for (every, script, report, pages) in cases {
        assert!(rt;
            writes(&rt, alloc, every, script, report, pages)?,
            "{every}: {script}"
        );
    }
    Ok(())
}

#[test]
fn a_round_and_its_workers_have_bounds(rt: HostRuntime) -> Result<(), Fail> {
    let alloc = rt.alloc();
    for words in [
        "dirty 0 1",
        "dirty 10001 1",
        "dirty 1 0",
        "dirty 1 17",
        "dirty 1",
        "dirty 1 1 1",
    ] {
        let (status, _taken) = ended_with(&rt, alloc, words, b"", &Free, &[], &[])?;
        assert_eq!(rt; status, Status::Usage, "{words}");
    }
    let (status, _taken) = ran(alloc, "dirty 1 1", b"", &[], 999, &[])?;
    assert_eq!(rt; status, Status::Usage, "without threads");
    Ok(())
}

#[test]
fn a_refused_script_has_no_pages(rt: HostRuntime) -> Result<(), Fail> {
    let alloc = rt.alloc();
    let (status, taken) = ended_with(
        &rt,
        alloc,
        "dirty 1 1",
        b"memory 1\nendpoint",
        &Free,
        &[],
        &[],
    )?;
    assert_eq!(rt; status.number(), 3);
    assert_eq!(rt; taken.as_slice(), b"bad script line 2: word\n".as_slice());
    Ok(())
}
