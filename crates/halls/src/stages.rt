// The stages that a script goes through.
ghost use Rattle.std.specs.Prelude.{◌≡◌, nat_le, nat_lt};
ghost use Rattle.halls.specs.Stages.{rank, box_stage};
ghost use Rattle.halls.specs.Order.{opened, entered};

use crate::requests::Reason;

// What a script may still ask for: each stage comes after those above it.
#[derive(Clone, Copy, PartialEq, Eq, PartialOrd, Ord)]
pub enum Stage {
    Opening,
    Fitting,
    FirstBox,
    SecondBox,
    ThirdBox,
    FourthBox,
    Asking,
    Talking,
}

impl Stage {
    // Whether a script at this stage may go on to that one, or stay.
    pub fn admits(self, next: Stage) -> bool
        ensures { result ≡ nat_le (rank self) (rank next) }
    {
        self <= next
    }

    // The stage after a request that belongs to a stage, or to any, and that suits the bank or not; else why it is refused.
    pub fn after(self, request: Option<Stage>, suits: bool) -> Result<Stage, Reason>
        ensures { result ≡ entered self request suits }
    {
        let Some(stage) = request else {
            return Ok(self);
        };
        if !self.admits(stage) {
            return Err(Reason::OutOfOrder);
        }
        if !suits {
            return Err(Reason::OtherBank);
        }
        Ok(stage.once_open())
    }

    // The opening request leaves the fitting.
    fn once_open(self) -> Stage
        ensures { result ≡ opened self }
    {
        match self {
            Stage::Opening => Stage::Fitting,
            stage => stage,
        }
    }

    // Whether this stage comes after that one.
    pub fn is_after(self, other: Stage) -> bool
        ensures { result ≡ nat_lt (rank other) (rank self) }
    {
        self > other
    }

    // The stage in which the box of a level is joined, 1 the lowest.
    // A level numbers the boxes and not the stages, so a plain conversion from a number would hide what it counts.
    pub fn of_level(level: u8) -> Option<Stage>
        ensures { result ≡ box_stage level }
    {
        match level {
            1 => Some(Stage::FirstBox),
            2 => Some(Stage::SecondBox),
            3 => Some(Stage::ThirdBox),
            4 => Some(Stage::FourthBox),
            _ => None,
        }
    }
}
