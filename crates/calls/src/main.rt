// Plays a script of calls on a sheet, from standard input: each line is answered by one line, a refused call by its cause.
#![tactic(auto)]

use crate::playing::play;
use std::io;
use std::io::Read;

// What a line asks for.
mod asks;
// What is kept from line to line.
mod hands;
// All lines of a script, one after another.
mod playing;
// What a line is read as.
mod reading;
// What is printed.
mod replies;
// One line: the call that it asks for, with the slip in hand.
mod turns;

fn main(rt: HostRuntime) -> io::Result<()> {
    let mut script = Vec::new(rt.alloc());
    rt.stdin().read_to_end(&mut script)?;
    let answers = play(rt.alloc(), script.as_slice())?;
    rt.print(answers)
}
