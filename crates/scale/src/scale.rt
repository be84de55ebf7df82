// One scale.
ghost use Rattle.scale.specs.Bounds.{Bounded, Spanned};

use crate::state::State;

// One scale: all that it remembers, within the bounds of its loads, each span above 0.
#[derive(Clone, Copy)]
pub struct Scale {
    pub state: State,
    ghost bounded: { Bounded state },
    ghost spanned: { Spanned state },
}
