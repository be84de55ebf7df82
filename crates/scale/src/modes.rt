// How a scale listens.

// A scale listens alone, or with all the others.
#[derive(Clone, Copy)]
pub enum Mode {
    Selected,
    Broadcast,
}
