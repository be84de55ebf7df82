// How many readings a measurement takes.
ghost use Rattle.std.specs.Prelude.{◌≡◌, ◌*◌};
ghost use Rattle.value.specs.Numbers.{known};
ghost use Rattle.scale.specs.Choices.{averaging_number, averaging_numbered, readings_of, weight_of};

use value::output::UnknownNumber;

// A measurement is the mean of so many readings.
#[derive(Clone, Copy)]
pub enum Averaging {
    One = 0,
    Two = 1,
    Four = 2,
    Eight = 3,
    Sixteen = 4,
}

impl TryFrom<u8> for Averaging {
    type Error = UnknownNumber;

    ghost try_from_gives = { λ n averaging. averaging ≡ known n (averaging_numbered n) };

    // The averaging with this number, the power of two.
    fn try_from(number: u8) -> Result<Self, UnknownNumber> {
        match number {
            0 => Ok(Averaging::One),
            1 => Ok(Averaging::Two),
            2 => Ok(Averaging::Four),
            3 => Ok(Averaging::Eight),
            4 => Ok(Averaging::Sixteen),
            _ => Err(UnknownNumber(number)),
        }
    }
}

impl Averaging {
    // The power of two.
    pub(crate) fn number(self) -> u8
        ensures { result ≡ averaging_number self }
    {
        self as u8
    }

    // How many readings a measurement takes.
    pub(crate) fn readings(self) -> u8
        ensures { result ≡ readings_of self }
    {
        match self {
            Averaging::One => 1,
            Averaging::Two => 2,
            Averaging::Four => 4,
            Averaging::Eight => 8,
            Averaging::Sixteen => 16,
        }
    }

    // How many times 1/16,000 digit a thousandth of a digit in the sum of the readings stands for.
    pub(crate) fn weight(self) -> i64
        ensures { result ≡ weight_of self }
    {
        match self {
            Averaging::One => 16,
            Averaging::Two => 8,
            Averaging::Four => 4,
            Averaging::Eight => 2,
            Averaging::Sixteen => 1,
        }
    }
}
