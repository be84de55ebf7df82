// The binary formats: two's complement in three bytes or in two.
ghost use Rattle.value.specs.Formats.{three_bytes_and, two_bytes, reversed, three_byte_limits, two_byte_limits};
ghost use Rattle.value.specs.Apart.{three_bytes_and_apart, two_bytes_apart, reversed_apart};
ghost use Rattle.std.proofs.Common.{rules, ◌∙◌};
ghost use Rattle.std.proofs.lemmas.List.{length-reverse};

use crate::format::ValueFormat;
use crate::limits::Limits;
use crate::placing::place;

// Three bytes, the high one first, and a fourth: the status, or else a zero.
pub struct ThreeBytesAnd<const STATUS: bool>;

// Three bytes and a zero.
pub type ThreeBytes = ThreeBytesAnd<false>;

// Three bytes and the status.
pub type ThreeBytesStatus = ThreeBytesAnd<true>;

impl<const STATUS: bool> ValueFormat for ThreeBytesAnd<STATUS> {
    const WIDTH: usize = 4;

    ghost WIDTH = { 4 };

    const FULL_SCALE: u32 = 5_120_000;

    ghost FULL_SCALE = { 5120000 };

    const LIMITS: Limits = Limits {
        lower: -8_388_608,
        upper: 8_388_607,
        ceiling: u32::MAX,
    };

    ghost LIMITS = { three_byte_limits };

    ghost bytes = { three_bytes_and STATUS };

    ghost long = { Prim.search rules };

    ghost short = { Prim.search rules };

    ghost apart = { three_bytes_and_apart STATUS };

    fn put(indicated: i32, address: u8, status: u8, out: &mut [u8]) -> usize {
        let [_, high, middle, low] = indicated.to_be_bytes();
        let last = if STATUS { status } else { 0 };
        place(&[high, middle, low, last], out)
    }
}

// Two bytes, the high one first.
pub struct TwoBytes;

impl ValueFormat for TwoBytes {
    const WIDTH: usize = 2;

    ghost WIDTH = { 2 };

    const FULL_SCALE: u32 = 20_000;

    ghost FULL_SCALE = { 20000 };

    const LIMITS: Limits = Limits {
        lower: -32_768,
        upper: 32_767,
        ceiling: 30_000,
    };

    ghost LIMITS = { two_byte_limits };

    ghost bytes = { two_bytes };

    ghost long = { Prim.search rules };

    ghost short = { Prim.search rules };

    ghost apart = { two_bytes_apart };

    fn put(indicated: i32, address: u8, status: u8, out: &mut [u8]) -> usize {
        let [_, _, high, low] = indicated.to_be_bytes();
        place(&[high, low], out)
    }
}

// The bytes of another format, the last one first.
pub struct Reversed<F>(F);

impl<F: ValueFormat> ValueFormat for Reversed<F> {
    const WIDTH: usize = F::WIDTH;

    ghost WIDTH = { F.WIDTH };

    const FULL_SCALE: u32 = F::FULL_SCALE;

    ghost FULL_SCALE = { F.FULL_SCALE };

    const LIMITS: Limits = F::LIMITS;

    ghost LIMITS = { F.LIMITS };

    ghost bytes = { reversed F.bytes };

    ghost long = { λ a s v. length-reverse (F.bytes a s v) ∙ F.long a s v };

    ghost short = { Prim.search rules };

    ghost apart = { reversed_apart F.LIMITS F.bytes F.apart };

    fn put(indicated: i32, address: u8, status: u8, out: &mut [u8]) -> usize {
        let n = F::put(indicated, address, status, out);
        out[0..n].reverse();
        n
    }
}
