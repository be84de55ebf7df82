// The output formats by their numbers, and a block of values in one of them.
ghost use Rattle.std.specs.Prelude.{◌≡◌, length};
ghost use Rattle.value.specs.Fitting.{fits};
ghost use Rattle.value.specs.Numbers.{known};
ghost use Rattle.value.specs.Output.{shape, numbered_format, full_shown, ending_of, format_number, format_block, Numbered, LayoutsApart, BlocksHaveRoom};
ghost use Rattle.value.specs.Written.{granted, written};

use crate::block::{Ending, Measured};
use crate::layout::Layout;
pub use crate::unknown::UnknownNumber;

// A format whose number is larger by this drops CR LF.
const DROPPED: u8 = 32;

// A format: the layout of a value, and whether CR LF is kept.
#[derive(Clone, Copy)]
pub struct OutputFormat {
    pub layout: Layout,
    pub ended: bool,
}

impl TryFrom<u8> for OutputFormat {
    type Error = UnknownNumber;

    ghost try_from_gives = { λ n format. format ≡ known n (numbered_format n) };

    // The format with this number: that of its layout, or 32 more where CR LF is dropped.
    #[tactic(auto, using(crate::proofs::Numbers::number_law), unfolding(crate::specs::Output::numbered_format))]
    fn try_from(number: u8) -> Result<Self, UnknownNumber>
        ensures value { result ≡ known number (numbered_format number) }
        ensures inverse { Numbered }
    {
        let (own, ended) = if number < DROPPED {
            (number, true)
        } else {
            (number - DROPPED, false)
        };
        let layout = Layout::try_from(own).map_err(|_| UnknownNumber(number))?;
        Ok(OutputFormat { layout, ended })
    }
}

impl OutputFormat {
    // Its number.
    #[tactic(auto, unfolding(crate::specs::Output::format_number))]
    pub fn number(self) -> u8
        ensures { result ≡ format_number self }
    {
        if self.ended {
            self.layout.number()
        } else {
            self.layout.number() + DROPPED
        }
    }

    // What the whole span shows: the nominal value, or the full scale of the format where that is 0.
    pub fn full_scale(self, nominal: u32) -> u32
        ensures { result ≡ full_shown self nominal }
    {
        if nominal == 0 {
            self.layout.full_scale()
        } else {
            nominal
        }
    }

    // Whether a value fits at this nominal value.
    pub fn fits(self, nominal: u32, value: i128) -> bool
        ensures { result ≡ fits (shape self.layout).limits nominal value }
    {
        self.layout.fits(nominal, value)
    }

    // Decimal values each end with CR LF, a binary block ends with one, or it is dropped.
    pub fn ending(self) -> Ending
        ensures { result ≡ ending_of self }
    {
        self.layout.ending(self.ended)
    }

    // Writes the values one after another, or nothing where they have no room: how many bytes were
    // written. At most 64 values always have room in 1,088 bytes.
    #[tactic(auto, using(crate::proofs::Laws::layouts_apart, crate::proofs::Laws::blocks_have_room), unfolding(crate::specs::Output::format_block))]
    pub fn write(self, values: &[Measured], address: u8, nominal: u32, out: &mut [u8]) -> usize
        ensures count { result ≡ length (granted out.old (format_block self nominal address values.now)) }
        ensures buffer { out.new ≡ written out.old (format_block self nominal address values.now) }
        ensures apart { LayoutsApart }
        ensures room { BlocksHaveRoom }
    {
        self.layout.write(values, address, nominal, self.ended, out)
    }
}
