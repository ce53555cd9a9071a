// The vectors of document 01: each line of the input makes a table by hand, changes it, and tries an event on it.
// What is printed is the line's label and the number that was given back. The head of the input says what its words mean.
#![tactic(auto)]

mod change; // change.rt: what a command changes in a table
mod command; // command.rt: a command, of a word and its values
mod desk; // desk.rt: the table at hand, and what a command does to it
mod lines; // lines.rt: the lines of the input
mod words; // words.rt: the words of the commands

use arrayvec::ArrayVec;
use std::io;
use std::io::Read;

// The bytes of the input that are read.
const MOST: usize = 65536;

// Reads until the text is full, the input ends or a read fails; what came until then counts.
fn main(rt: HostRuntime) {
    let mut text = ArrayVec::<u8, MOST>::new();
    let _ = io::copy(&mut rt.stdin().take(MOST as u64), &mut text);
    lines::take_all(&rt, text.as_slice());
}
