//! Pages as users meet them.
use std::test::Fail;
use vi_memory::{Page, zero_pages};

#[test]
fn writes_change_their_bytes_alone(rt: HostRuntime) -> Result<(), Fail> {
    let mut page = Page::zero(rt.alloc())?;
    assert!(rt; page.read(0, 4096).iter().all(|byte| *byte == 0));
    page.write(4093, b"end");
    page.write(16, b"abcd");
    page.write(17, b"");
    assert_eq!(rt; page.read(15, 6), b"\0abcd\0".as_slice());
    assert_eq!(rt; page.read(4092, 4), b"\0end".as_slice());
    assert_eq!(rt; page.read(4096, 0).len(), 0);
    Ok(())
}

#[test]
fn pages_are_made(rt: HostRuntime) -> Result<(), Fail> {
    let pages = zero_pages(rt.alloc(), 2)?;
    assert_eq!(rt; pages.len(), 2);
    Ok(())
}
