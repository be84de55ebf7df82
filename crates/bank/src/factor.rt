// The corner factor of a gauge.
ghost use Rattle.std.specs.Prelude.{◌≤◌};

// A corner factor, in thousandths: it evens out where on the platform a load stands.
#[derive(Clone, Copy)]
pub struct CornerFactor {
    pub thousandths: u16,
    ghost tuned: { thousandths ≤ 1500 },
}
