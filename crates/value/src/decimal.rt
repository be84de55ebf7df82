// The decimal formats: the sign and seven digits, alone or with the address and the status.
ghost use Rattle.value.specs.Formats.{decimal, decimal_status, decimal_limits};
ghost use Rattle.value.specs.Apart.{decimal_apart, decimal_status_apart};
ghost use Rattle.std.proofs.Common.{rules};

use crate::format::ValueFormat;
use crate::limits::Limits;
use crate::placing::place;
use crate::signed::signed;
use figures::digits;

const DECIMAL_LIMITS: Limits = Limits {
    lower: -1_638_400,
    upper: 1_638_400,
    ceiling: u32::MAX,
};

// The sign and seven digits.
pub struct Decimal;

impl ValueFormat for Decimal {
    const WIDTH: usize = 8;

    ghost WIDTH = { 8 };

    const FULL_SCALE: u32 = 1_000_000;

    ghost FULL_SCALE = { 1000000 };

    const LIMITS: Limits = DECIMAL_LIMITS;

    ghost LIMITS = { decimal_limits };

    ghost bytes = { decimal };

    ghost long = { Prim.search rules };

    ghost short = { Prim.search rules };

    ghost apart = { decimal_apart };

    fn put(indicated: i32, address: u8, status: u8, out: &mut [u8]) -> usize {
        place(&signed::<8>(i64::from(indicated)), out)
    }
}

// The sign and seven digits, a comma, two digits of the address, a comma and three digits of the status.
pub struct DecimalStatus;

impl ValueFormat for DecimalStatus {
    const WIDTH: usize = 15;

    ghost WIDTH = { 15 };

    const FULL_SCALE: u32 = Decimal::FULL_SCALE;

    ghost FULL_SCALE = { ⟦<Decimal as ValueFormat>⟧.FULL_SCALE };

    const LIMITS: Limits = DECIMAL_LIMITS;

    ghost LIMITS = { decimal_limits };

    ghost bytes = { decimal_status };

    ghost long = { Prim.search rules };

    ghost short = { Prim.search rules };

    ghost apart = { decimal_status_apart };

    fn put(indicated: i32, address: u8, status: u8, out: &mut [u8]) -> usize {
        let mut text = [b','; 15];
        text[..8].copy_from_slice(&signed::<8>(i64::from(indicated)));
        text[9..11].copy_from_slice(&digits::<2>(u64::from(address)));
        text[12..].copy_from_slice(&digits::<3>(u64::from(status)));
        place(&text, out)
    }
}
