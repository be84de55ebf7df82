// Calls of a terminal, and what each returned and wrote.
use crate::answers::{Obeyed, Served};

// One call, with the bytes that it is given: a command to obey, or a byte run to serve.
#[derive(Clone, Copy)]
pub enum Call<'a> {
    Obey(&'a [u8]),
    Serve(&'a [u8]),
}

// What a call returned.
#[derive(Clone, Copy)]
pub enum Outcome {
    Command(Obeyed),
    Run(Served),
}

// A call and the buffer that is lent for its answers, all of which is their room; and what the call returned, once it was made.
#[derive(Drop)]
pub struct Exchange<'a> {
    pub call: Call<'a>,
    pub answers: Vec<u8>,
    pub outcome: Option<Outcome>,
}
