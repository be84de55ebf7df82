// The layouts of a value, each by its format.
ghost use Rattle.std.specs.Prelude.{◌≡◌, ◌≤◌, length};
ghost use Rattle.value.specs.Blocks.{value_bytes, block};
ghost use Rattle.value.specs.Fitting.{fits};
ghost use Rattle.value.specs.Numbers.{known};
ghost use Rattle.value.specs.Output.{shape, layout_numbered, ending_of};
ghost use Rattle.value.specs.Written.{granted, written};

use crate::binary::{Reversed, ThreeBytes, ThreeBytesStatus, TwoBytes};
use crate::block::{Ending, Measured, write_block};
use crate::decimal::{Decimal, DecimalStatus};
use crate::format::ValueFormat;
use crate::unknown::UnknownNumber;

// The order of the bytes of a value; the discriminant is the layout's number.
#[derive(Clone, Copy)]
pub enum Layout {
    ThreeBytes = 0,
    ThreeBytesStatus = 8,
    ThreeBytesReversed = 4,
    ThreeBytesStatusReversed = 12,
    TwoBytes = 2,
    TwoBytesReversed = 6,
    Decimal = 3,
    DecimalStatus = 9,
}

impl TryFrom<u8> for Layout {
    type Error = UnknownNumber;

    ghost try_from_gives = { λ n layout. layout ≡ known n (layout_numbered n) };

    // The layout with this number.
    fn try_from(number: u8) -> Result<Self, UnknownNumber> {
        match number {
            0 => Ok(Layout::ThreeBytes),
            2 => Ok(Layout::TwoBytes),
            3 => Ok(Layout::Decimal),
            4 => Ok(Layout::ThreeBytesReversed),
            6 => Ok(Layout::TwoBytesReversed),
            8 => Ok(Layout::ThreeBytesStatus),
            9 => Ok(Layout::DecimalStatus),
            12 => Ok(Layout::ThreeBytesStatusReversed),
            _ => Err(UnknownNumber(number)),
        }
    }
}

impl Layout {
    // Its number.
    pub(crate) fn number(self) -> u8
        ensures value { result ≡ (shape self).number }
        ensures small { result ≤ 12 }
    {
        self as u8
    }

    // Where CR LF stands, if it is kept: after each decimal value, and once after a binary block.
    pub(crate) fn ending(self, ended: bool) -> Ending
        ensures { result ≡ ending_of (record { layout = self; ended = ended }) }
    {
        match (ended, self) {
            (false, _) => Ending::Dropped,
            (true, Layout::Decimal | Layout::DecimalStatus) => Ending::Each,
            (true, _) => Ending::Once,
        }
    }

    // What the whole span shows where no nominal value is set.
    pub(crate) fn full_scale(self) -> u32
        ensures { result ≡ (shape self).full }
    {
        match self {
            Layout::ThreeBytes => ThreeBytes::FULL_SCALE,
            Layout::ThreeBytesStatus => ThreeBytesStatus::FULL_SCALE,
            Layout::ThreeBytesReversed => Reversed::<ThreeBytes>::FULL_SCALE,
            Layout::ThreeBytesStatusReversed => Reversed::<ThreeBytesStatus>::FULL_SCALE,
            Layout::TwoBytes => TwoBytes::FULL_SCALE,
            Layout::TwoBytesReversed => Reversed::<TwoBytes>::FULL_SCALE,
            Layout::Decimal => Decimal::FULL_SCALE,
            Layout::DecimalStatus => DecimalStatus::FULL_SCALE,
        }
    }

    // Whether a value fits at this nominal value.
    pub(crate) fn fits(self, nominal: u32, value: i128) -> bool
        ensures { result ≡ fits (shape self).limits nominal value }
    {
        match self {
            Layout::ThreeBytes => ThreeBytes::LIMITS.fits(nominal, value),
            Layout::ThreeBytesStatus => ThreeBytesStatus::LIMITS.fits(nominal, value),
            Layout::ThreeBytesReversed => Reversed::<ThreeBytes>::LIMITS.fits(nominal, value),
            Layout::ThreeBytesStatusReversed => {
                Reversed::<ThreeBytesStatus>::LIMITS.fits(nominal, value)
            }
            Layout::TwoBytes => TwoBytes::LIMITS.fits(nominal, value),
            Layout::TwoBytesReversed => Reversed::<TwoBytes>::LIMITS.fits(nominal, value),
            Layout::Decimal => Decimal::LIMITS.fits(nominal, value),
            Layout::DecimalStatus => DecimalStatus::LIMITS.fits(nominal, value),
        }
    }

    // Writes the values as a block of this layout, with CR LF or without, or nothing where they have no room.
    pub(crate) fn write(
        self,
        values: &[Measured],
        address: u8,
        nominal: u32,
        ended: bool,
        out: &mut [u8],
    ) -> usize
        ensures count { result ≡ length (granted out.old (block (ending_of (record { layout = self; ended = ended })) (value_bytes (shape self).limits (shape self).bytes nominal address) values.now)) }
        ensures buffer { out.new ≡ written out.old (block (ending_of (record { layout = self; ended = ended })) (value_bytes (shape self).limits (shape self).bytes nominal address) values.now) }
    {
        // One of a family stands for all, so that each arm knows its ending.
        let binary = Layout::ThreeBytes.ending(ended);
        let decimal = Layout::Decimal.ending(ended);
        // An arm for each layout: no pointer to a generic function gets a proof, so the writers cannot stand behind one.
        match self {
            Layout::ThreeBytes => write_block::<ThreeBytes>(values, address, nominal, binary, out),
            Layout::ThreeBytesStatus => {
                write_block::<ThreeBytesStatus>(values, address, nominal, binary, out)
            }
            Layout::ThreeBytesReversed => {
                write_block::<Reversed<ThreeBytes>>(values, address, nominal, binary, out)
            }
            Layout::ThreeBytesStatusReversed => {
                write_block::<Reversed<ThreeBytesStatus>>(values, address, nominal, binary, out)
            }
            Layout::TwoBytes => write_block::<TwoBytes>(values, address, nominal, binary, out),
            Layout::TwoBytesReversed => {
                write_block::<Reversed<TwoBytes>>(values, address, nominal, binary, out)
            }
            Layout::Decimal => write_block::<Decimal>(values, address, nominal, decimal, out),
            Layout::DecimalStatus => {
                write_block::<DecimalStatus>(values, address, nominal, decimal, out)
            }
        }
    }
}
