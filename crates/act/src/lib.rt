// What one room does in a step: from its record and the queue to its record, the queue and the messages that it sends.
#![tactic(auto)]

mod acts; // acts.rt: what each event does
mod desk; // desk.rt: the work that stands on a desk, and what changes it
mod lay; // lay.rt: how a desk is laid out
mod read; // read.rt: what a desk says

pub use acts::{ask, hand_back, receive, upgrade};
pub use desk::Desk;
use room::Room;
use table::{QUEUE, Queued};

// The places of a queue while a room acts: one may join a full one.
pub const PLACES: usize = QUEUE + 1;
// Room for the messages of one step: with the token one for each place at most, without it a loan and a REDUCE. Two to spare.
pub const OUTBOX: usize = PLACES + 2;

// A room before it acts, and the queue: an array and its count, as the table has them.
#[derive(Clone, Copy)]
pub struct Start {
    pub me: u8,
    pub room: Room,
    pub queue: [Queued; QUEUE],
    pub queued: usize,
}
