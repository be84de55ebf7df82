// The platform's input at its limit: a command whose end character is the last byte that is read, and one that lies across it.
use platforms::{answers, first_bytes};
use std::alloc::Global;
use std::test::Fail;

// How many bytes are read.
const LIMIT: usize = 4096;

// Scale 1 weighs once, by a command whose end character is the byte with this number, counted from 1; more commands follow.
fn weighed_at(heap: Global, end: usize) -> Result<Vec<u8>, Fail> {
    let mut input = Vec::new(heap);
    input.extend_from_slice(b"S01;COF3;")?;
    for _ in 0..end.saturating_sub(14) {
        input.push(b';')?;
    }
    input.extend_from_slice(b"MSV?;ESR?;MSV?;")?;
    let read = first_bytes(heap, input.as_slice())?;
    Ok(answers(heap, read.as_slice(), vec![in heap; 0u8; 2000]?))
}

#[test]
fn a_command_across_the_limit_is_not_obeyed(rt: HostRuntime) -> Result<(), Fail> {
    let within = weighed_at(rt.alloc(), LIMIT)?;
    assert_eq!(rt; within.as_slice(), b"0\r\n+1000500\r\n".as_slice());
    let across = weighed_at(rt.alloc(), LIMIT + 1)?;
    assert_eq!(rt; across.as_slice(), b"0\r\n".as_slice());
    Ok(())
}
