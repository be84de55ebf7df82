// The input of the platform.
ghost use Rattle.std.specs.Prelude.{◌≡◌, take, IfOk, IfSome, vec_items};

use std::alloc::Global;
use std::io::{self, Read};

// So many bytes are read.
pub(crate) const MOST: usize = 4096;

// The first 4,096 bytes that a reader gives, or all where it ends before.
pub fn first_bytes<R: Read + Drop>(heap: Global, reader: R) -> io::Result<Vec<u8>>
    ensures { IfOk result (λ v. IfSome (R.remaining reader) (λ xs. vec_items v ≡ take 4096 xs)) }
{
    let mut bytes = Vec::new(heap);
    reader.take(MOST as u64).read_to_end(&mut bytes)?;
    Ok(bytes)
}
