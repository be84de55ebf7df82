// Measured values in a format: one value, and a block of them.
ghost use Rattle.std.specs.Prelude.{◌≡◌, ◌+◌, ◌*◌, ◌≤◌, ◌++◌, length};
ghost use Rattle.std.specs.List.{flat_map};
ghost use Rattle.value.specs.Blocks.{value_bytes, each_end, last_end, block};
ghost use Rattle.value.specs.Written.{granted, onto, written};

use crate::format::ValueFormat;
use crate::placing::place;

// A measured value as it is shown, and its status.
#[derive(Clone, Copy)]
pub struct Measured {
    pub value: i128,
    pub status: u8,
}

// Where CR LF stands in a block: after each value, once after them all, or nowhere.
#[derive(Clone, Copy)]
pub enum Ending {
    Each,
    Once,
    Dropped,
}

impl Ending {
    // What stands after each value.
    pub fn after_each(self) -> &'static [u8]
        ensures { result.now ≡ each_end self }
    {
        match self {
            Ending::Each => b"\r\n",
            Ending::Once | Ending::Dropped => b"",
        }
    }

    // What stands after the last value.
    pub fn after_all(self) -> &'static [u8]
        ensures { result.now ≡ last_end self }
    {
        match self {
            Ending::Once => b"\r\n",
            Ending::Each | Ending::Dropped => b"",
        }
    }
}

// Writes one value, or nothing where it has no room: how many bytes were written.
// Address and nominal value stand side by side: a struct of the two would have no meaning of its own.
pub fn write_value<F: ValueFormat>(
    measured: Measured,
    address: u8,
    nominal: u32,
    out: &mut [u8],
) -> usize
    ensures count { result ≡ length (granted out.old (value_bytes F.LIMITS F.bytes nominal address measured)) }
    ensures buffer { out.new ≡ written out.old (value_bytes F.LIMITS F.bytes nominal address measured) }
{
    let indicated = F::LIMITS.indicated(nominal, measured.value);
    F::put(indicated, address, measured.status, out)
}

// How many bytes so many values take, with so many bytes after them.
fn size(values: usize, each: usize, last: usize) -> u128
    ensures { result ≡ values * each + last }
{
    values as u128 * each as u128 + last as u128
}

// Writes an end, or nothing where it has no room: how many bytes were written. An end of two bytes is
// written as two bytes, which costs less than a copy of so many.
fn place_end(end: &[u8], out: &mut [u8]) -> usize
    ensures count { result ≡ length (granted out.old end.now) }
    ensures buffer { out.new ≡ written out.old end.now }
{
    match end {
        [] => 0,
        [first, second] => place(&[*first, *second], out),
        _ => place(end, out),
    }
}

// Writes the values one after another, or nothing where the whole block has no room: how many bytes were written.
pub fn write_block<F: ValueFormat>(
    values: &[Measured],
    address: u8,
    nominal: u32,
    ending: Ending,
    out: &mut [u8],
) -> usize
    ensures count { result ≡ length (granted out.old (block ending (value_bytes F.LIMITS F.bytes nominal address) values.now)) }
    ensures buffer { out.new ≡ written out.old (block ending (value_bytes F.LIMITS F.bytes nominal address) values.now) }
{
    let each = ending.after_each();
    let last = ending.after_all();
    if (out.len() as u128) < size(values.len(), F::WIDTH + each.len(), last.len()) {
        return 0;
    }
    let mut n = 0;
    for m in values {
        n += write_value::<F>(*m, address, nominal, &mut out[n..]);
        n += place_end(each, &mut out[n..]);
    }
    n + place_end(last, &mut out[n..])
}
