//! A back end, as its holder meets it.
ghost use Rattle.vi_lines.specs.Calls.{HasTransfers};

use crate::scripts::script_of;
use std::alloc::Global;
use std::test::Fail;
use vi_backend::{Backend, Wish};
use vi_bytes::Need;
use vi_iotlb::Frame;
use vi_lines::Script;

/// What the one back end of the script wishes first. `None` where the script has another number of endpoints or another cache, or
/// where there is no memory.
fn first_wish(alloc: Global, script: &Script) -> Option<Wish>
    requires { HasTransfers script.now }
{
    let setup = &script.setup;
    if setup.endpoints.len() != 1 || setup.cache < 1 || setup.cache > 64 {
        return None;
    }
    match Backend::new(alloc, script, 0) {
        Ok(back) => Some(back.next()),
        Err(_) => None,
    }
}

#[test]
fn a_back_end_asks_for_its_first_part(rt: HostRuntime) -> Result<(), Fail> {
    let script = script_of(rt.alloc(), b"endpoint 7\nb7 write 0x1ffe 01020304")?;
    let miss = Frame::Miss {
        iova: 0x1ffe,
        len: 2,
        need: Need::Write,
    };
    assert_eq!(rt; first_wish(rt.alloc(), &script), Some(Wish::Ask(miss)));
    Ok(())
}
