// The records of a recording, and how far each port has been read.

// A kept output of a gauge: the port that it came from, and its digits.
#[derive(Clone, Copy)]
pub struct Record {
    pub port: u8,
    pub digits: i32,
}

// Where the next record of a port is looked for, and how many of that port stand there or later.
#[derive(Clone, Copy)]
pub struct Cursor {
    pub next: usize,
    pub left: u16,
}

// A record that was found: its digits, and the place after it.
#[derive(Clone, Copy)]
pub struct Found {
    pub digits: i32,
    pub after: usize,
}
