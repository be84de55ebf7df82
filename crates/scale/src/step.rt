// The display step.
ghost use Rattle.std.specs.Prelude.{◌≡◌};
ghost use Rattle.value.specs.Numbers.{known};
ghost use Rattle.scale.specs.Choices.{step_value, step_valued};

use value::output::UnknownNumber;

// Shown values are multiples of the step.
#[derive(Clone, Copy)]
pub enum Step {
    One = 1,
    Two = 2,
    Five = 5,
    Ten = 10,
    Twenty = 20,
    Fifty = 50,
    Hundred = 100,
}

impl TryFrom<u8> for Step {
    type Error = UnknownNumber;

    ghost try_from_gives = { λ n step. step ≡ known n (step_valued n) };

    // The step of this many units.
    fn try_from(number: u8) -> Result<Self, UnknownNumber> {
        match number {
            1 => Ok(Step::One),
            2 => Ok(Step::Two),
            5 => Ok(Step::Five),
            10 => Ok(Step::Ten),
            20 => Ok(Step::Twenty),
            50 => Ok(Step::Fifty),
            100 => Ok(Step::Hundred),
            _ => Err(UnknownNumber(number)),
        }
    }
}

impl Step {
    // How many units the step has.
    pub(crate) fn value(self) -> u8
        ensures { result ≡ step_value self }
    {
        self as u8
    }
}
