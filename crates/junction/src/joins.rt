// A join, as a value.

// A port below, and the port above that it is to feed.
#[derive(Clone, Copy)]
pub struct Join {
    pub below: u8,
    pub above: u8,
}
