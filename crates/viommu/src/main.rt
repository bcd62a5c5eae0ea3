//! The program `viommu`: a Virtio IOMMU device with caching back ends, run by scripts, for testers
//! of devices, drivers and back ends. `main` hands the words of the command line, standard input
//! and standard output to `top` of `vi_threaded`. It ends with the status's number.
//!
//! Main calls:
//! - `viommu run W` answers the report of a run of the script on W threads.
//! - `viommu one` answers the one-thread device's replies, in the order of the text.
//! - `viommu check` answers `legal`, or what is wrong first with the report behind the script.
//!
//! # Limits
//! A script has at most 1,048,576 bytes, the input of `check` 67,108,864. Words that can't be read
//! as text are no words, so the status is Usage. Out of memory is status 8. No clause speaks of
//! `main`; `top` has them. The stored run of this crate (`args`, `stdin`, `stdout`) is tested. The
//! program isn't a device for a live guest, and has no PCI or MMIO transport.
//!
//! # Source
//! Virtio 1.2, 5.13.
#![tactic(auto)]

use std::alloc::AllocError;
use std::env;
use std::io::ErrorKind;
use std::process::ExitCode;
use std::rt::Env;
use vi_commands::{Reading, Status, Writing};
use vi_run::Free;
use vi_threaded::top;

fn main(rt: HostRuntime) -> ExitCode {
    let mut source = Reading::new(rt.stdin());
    let mut sink = Writing::new(rt.stdout());
    let status = match read_words(&rt) {
        Ok(words) => top(&rt, rt.alloc(), &words, &mut source, &mut sink, &Free).status,
        Err(AllocError) => Status::OutOfMemory,
    };
    ExitCode::from(status.number())
}

/// The words behind the program's name. Where they can't be read as text there are none, and so
/// they are no form of the command line. An error means out of memory.
fn read_words(rt: &(impl Env + AllocGlobal)) -> Result<Vec<String>, AllocError> {
    match env::args(rt) {
        Ok(words) => words.skip(1).collect(rt.alloc()),
        Err(error) if error.kind() == ErrorKind::OutOfMemory => Err(AllocError),
        Err(_) => Ok(Vec::new(rt.alloc())),
    }
}
