// One dial.
ghost use Rattle.std.specs.Prelude.{◌≤◌};

// The digits that a dial gives, and how many conversions are left.
#[derive(Clone, Copy)]
pub struct Dial {
    pub digits: i32,
    pub conversions: u16,
    ghost short: { conversions ≤ 65535 },
}
