// Answers in the caller's buffer.
ghost use Rattle.std.specs.Prelude.{◌≡◌, length};
ghost use Rattle.value.specs.Written.{granted, written};

// Writes the bytes at the front of the buffer, or nothing where they do not all have room: how many were written.
// It answers a number and no slice, as the C interface and `Obeyed` do of a buffer that the caller lends.
pub(crate) fn place(bytes: &[u8], out: &mut [u8]) -> usize
    ensures count { result ≡ length (granted out.old bytes.now) }
    ensures buffer { out.new ≡ written out.old bytes.now }
{
    let n = bytes.len();
    if out.len() < n {
        return 0;
    }
    out[0..n].copy_from_slice(bytes);
    n
}
