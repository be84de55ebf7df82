// What the platform answers.
ghost use Rattle.std.specs.Prelude.{◌≡◌, ◌≤◌, length, take, vec_items, vec_len, IfSome, IfOk, OnOk};
ghost use Rattle.std.specs.Io.KnownBytes.{Appends};
ghost use Rattle.platforms.specs.Answers.{answered_in, answers_to, written_of, Whole};

use crate::hall::platform;
use crate::reading::{MOST, first_bytes};
use std::alloc::{AllocError, Global};
use std::io::{self, Read, Write};
use std::mem;
use terminal::{Call, Exchange, Outcome, run};

// Room for every answer to so many bytes. An answer has at most 272 bytes for each byte of its command, the end character counted, and before a command the room of one answer must be left.
const ROOM: usize = 272 * MOST + terminal::ROOM;

// How many bytes a call wrote.
fn written(outcome: Option<Outcome>) -> usize
    ensures { result ≡ written_of outcome }
{
    match outcome {
        Some(Outcome::Command(obeyed)) => obeyed.written,
        Some(Outcome::Run(served)) => served.written,
        None => 0,
    }
}

// What serving a byte run in a new terminal over the platform writes, at the front of the caller's buffer, all of which is room for answers. The heap gives no byte: an empty list takes the buffer's place.
pub fn answers(heap: Global, bytes: &[u8], buffer: Vec<u8>) -> Vec<u8>
    ensures answers { vec_items result ≡ answered_in (vec_len buffer) bytes.now }
    ensures law { Whole (vec_len buffer) bytes.now }
{
    // The exchange is read where it was lent: an array that was lent as a slice is no longer known to hold what came of it.
    let exchanges: &mut [Exchange<'_>] = &mut [Exchange {
        call: Call::Serve(bytes),
        answers: buffer,
        outcome: None,
    }];
    run(platform(), exchanges);
    let written = written(exchanges[0].outcome);
    let mut answers = mem::replace(&mut exchanges[0].answers, Vec::new(heap));
    answers.truncate(written);
    answers
}

// A buffer of so many bytes.
fn buffer(heap: Global, room: usize) -> Result<Vec<u8>, AllocError>
    ensures { IfOk result (λ v. vec_len v ≡ room) }
{
    vec![in heap; 0u8; room]
}

// Serves the first 4,096 bytes of the input, and writes the answers.
pub fn serve<R: Read + Drop, W: Write>(heap: Global, input: R, output: &mut W) -> io::Result<()>
    ensures { OnOk result (IfSome (R.remaining input) (λ xs. Appends (W.contents output.old) (W.contents output.new) (answers_to (take 4096 xs)))) }
{
    let bytes = first_bytes(heap, input)?;
    let buffer = buffer(heap, ROOM)?;
    output.write_all(answers(heap, bytes.as_slice(), buffer).as_slice())
}
