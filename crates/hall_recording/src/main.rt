// Plays the script of a hall, here one over a recording.
// A program of its own beside that of the dials: the gate runs a program on one input.
#![tactic(auto)]

use std::io;

fn main(rt: HostRuntime) -> io::Result<()> {
    halls::play(rt.alloc(), rt.stdin(), &mut rt.stdout())
}
