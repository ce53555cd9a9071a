// The session program: lines from standard input, answers to standard output. What a line does and what is answered is all in `session`.
#![tactic(auto)]

mod lines; // lines.rt: bytes into lines, in whatever pieces they come

use lines::{BUFFER, Talk};
use std::io;
use std::io::Read;

// Answers line after line, to the end of the input, or as long as there is somebody to answer. A read that fails ends the input.
// A proved loop has to end, and nothing says that the input does: the turns are counted, up to a number that no run reaches.
fn answer_all(rt: &impl Print, from: &mut impl Read) -> io::Result<()> {
    let mut input = [0u8; BUFFER];
    let mut talk = Talk::start();
    for _ in 0..u64::MAX {
        let n = from.read(&mut input).unwrap_or(0);
        if n == 0 {
            break;
        }
        talk.take(rt, &input[..n])?;
    }
    talk.end(rt)
}

// Where an answer cannot be written there is nobody to tell.
fn main(rt: HostRuntime) {
    let _ = answer_all(&rt, &mut rt.stdin());
}
