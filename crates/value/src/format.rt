// What a format is: its constants, its meaning and its laws.
ghost use Rattle.std.specs.Prelude.{◌≡◌, ℕ, ◌≤◌, List, length, ℤ};
ghost use Rattle.value.specs.Fitting.{Apart};
ghost use Rattle.value.specs.Written.{granted, written};
ghost use Rattle.value.specs.declared.limits.Limits.{Limits};

use crate::limits::Limits;

// A way to write a value in a fixed number of bytes.
pub trait ValueFormat {
    // How many bytes a value takes.
    const WIDTH: usize;

    ghost WIDTH: { ℕ };

    // What the whole span shows where no nominal value is set.
    const FULL_SCALE: u32;

    ghost FULL_SCALE: { ℕ };

    // What fits, and the overflow values.
    const LIMITS: Limits;

    ghost LIMITS: { Limits };

    // the bytes from the address, the status and the indicated value
    ghost bytes: { ℕ → ℕ → ℤ → List ℕ };

    // Writes the bytes of an indicated value, or nothing where they have no room.
    fn put(indicated: i32, address: u8, status: u8, out: &mut [u8]) -> usize
        ensures count { result ≡ length (granted out.old (bytes address status indicated)) }
        ensures buffer { out.new ≡ written out.old (bytes address status indicated) };

    // every value takes the width
    ghost long: { (a s : ℕ) (v : ℤ) → length (bytes a s v) ≡ WIDTH };

    // no format is wider than 15 bytes
    ghost short: { WIDTH ≤ 15 };

    // a value that fits shares its bytes with no other: two values that fit never give the same bytes
    ghost apart: { Apart LIMITS bytes };
}
