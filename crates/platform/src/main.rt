// A platform on four gauges and a scale of its own, served from standard input.
#![tactic(auto)]

use std::alloc::AllocError;
use std::io::{self, ErrorKind};

// Whether an error comes from the allocator, and not from the system's call.
fn is_of_allocator(error: &io::Error) -> bool {
    error.kind() == ErrorKind::OutOfMemory && error.raw_os_error().is_none()
}

// Where it fails, it says why in a sentence; want of memory in the allocator's words.
fn main(rt: HostRuntime) -> anyhow::Result<()> {
    match platforms::serve(rt.alloc(), rt.stdin(), &mut rt.stdout()) {
        Err(error) if is_of_allocator(&error) => Err(AllocError.into()),
        res => Ok(res?),
    }
}
