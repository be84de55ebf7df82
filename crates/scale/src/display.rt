// Net or gross.
ghost use Rattle.std.specs.Prelude.{◌≡◌};
ghost use Rattle.value.specs.Numbers.{known};
ghost use Rattle.scale.specs.Choices.{display_number, display_numbered};

use value::output::UnknownNumber;

// Which weight is shown: less the tare, or not.
#[derive(Clone, Copy)]
pub enum Display {
    Net = 0,
    Gross = 1,
}

impl TryFrom<u8> for Display {
    type Error = UnknownNumber;

    ghost try_from_gives = { λ n display. display ≡ known n (display_numbered n) };

    // The display with this number.
    fn try_from(number: u8) -> Result<Self, UnknownNumber> {
        match number {
            0 => Ok(Display::Net),
            1 => Ok(Display::Gross),
            _ => Err(UnknownNumber(number)),
        }
    }
}

impl Display {
    pub(crate) fn number(self) -> u8
        ensures { result ≡ display_number self }
    {
        self as u8
    }
}
