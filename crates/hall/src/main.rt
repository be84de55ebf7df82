// Plays the script of a hall that standard input holds.
#![tactic(auto)]

use std::io;

fn main(rt: HostRuntime) -> io::Result<()> {
    halls::play(rt.alloc(), rt.stdin(), &mut rt.stdout())
}
