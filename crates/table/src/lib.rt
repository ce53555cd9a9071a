// The table by value: rooms, queue and messages; the fresh table; the search for the oldest message.
#![tactic(auto)]

ghost use Rattle.std.specs.Prelude.{◌≡◌, ℕ, ◌&&◌, leb, false, position};
ghost use Rattle.room.specs.Limits.{room_limit};
ghost use Rattle.table.specs.Numbers.{ROOM};
ghost use Rattle.table.specs.Tables.{empty_table, blank_table, fresh_of, answer, answer_in};
ghost use Rattle.table.specs.Oldest.{between, oldest_of};

mod refusal; // refusal.rt: the numbers given back

pub use refusal::{DONE, Refusal};
use room::{MOST_ROOMS, ROOMS, Room};

// The places of the queue.
pub const QUEUE: usize = 16;
// The messages that a table can have on its wires.
pub const WIRES: usize = 256;

// What a wire carries. Nothing stands on a wire that is not in use. It is a variant, and no Option around the others: on a
// damaged table it can stand on a wire in use, where what tests or takes a message answers for it, and each `match` would be two.
#[derive(Clone, Copy, PartialEq, Eq, Default)]
pub enum Message {
    #[default]
    Nothing,
    Request { origin: u8, mode: u8, idle: bool },
    Grant { mode: u8, link: u32 },
    Token { mode: u8, rest: u8, link: u32 },
    Reduce { link: u32, mode: u8 },
}

#[derive(Clone, Copy, PartialEq, Eq, Default)]
pub struct Wire {
    pub from: u8,
    pub to: u8,
    pub message: Message,
}

// A room that waits in the queue, with its wanted mode.
#[derive(Clone, Copy, PartialEq, Eq, Default)]
pub struct Queued {
    pub room: u8,
    pub mode: u8,
}

// What stands on a wire and in a place of the queue that are not in use.
pub const NO_WIRE: Wire = Wire {
    from: 0,
    to: 0,
    message: Message::Nothing,
};

pub const NO_QUEUED: Queued = Queued {
    room: 0,
    mode: modes::NONE,
};

// Arrays with the counts in use beside them, as the specification has them: a count or a filler that is damaged is a value, and gets its answer.
#[derive(Clone, Copy, PartialEq, Eq)]
pub struct Table {
    pub n: u8,
    pub rooms: [Room; ROOMS],
    pub queue: [Queued; QUEUE],
    pub queued: usize,
    pub wires: [Wire; WIRES],
    pub count: usize,
}

// A message, and its place among the wires.
#[derive(Clone, Copy, PartialEq, Eq)]
pub struct Found {
    pub place: usize,
    pub message: Message,
}

// A table of n rooms with these records, and nothing queued or under way.
fn laid(n: u8, rooms: [Room; ROOMS]) -> Table
    ensures { result ≡ empty_table n rooms }
{
    Table {
        n,
        rooms,
        queue: [NO_QUEUED; QUEUE],
        queued: 0,
        wires: [NO_WIRE; WIRES],
        count: 0,
    }
}

// A table of no rooms, with nothing in it: what a refused fresh table is, with its number. It is not well formed.
#[tactic(auto, unfolding(crate::specs::Tables::blank_table, crate::specs::Tables::fresh_of))]
pub fn blank() -> Table
    ensures value { result ≡ blank_table }
    ensures refused { (n : ℕ) → (leb 1 n && leb n room_limit) ≡ false → fresh_of n ≡ answer ROOM result }
{
    laid(0, [Room::blank(); ROOMS])
}

// A fresh table of n rooms; refused where n is 0 or above 16.
pub fn fresh(n: u8) -> Result<Table, Refusal>
    ensures { answer_in blank_table result ≡ fresh_of n }
{
    match n {
        1..=MOST_ROOMS => {
            let mut rooms = [Room::blank(); ROOMS];
            rooms[0].token = true;
            Ok(laid(n, rooms))
        }
        _ => Err(Refusal::Room),
    }
}

// The place of the first of these messages that goes from a to b.
fn place_of(wires: &[Wire], a: u8, b: u8) -> Option<usize>
    ensures { result ≡ position (between a b) wires.now }
{
    wires.iter().position(|w| w.from == a && w.to == b)
}

// The oldest message from a to b, with its place, or nothing.
pub fn oldest(t: Table, a: u8, b: u8) -> Option<Found>
    ensures { result ≡ oldest_of t a b }
{
    let place = place_of(&t.wires[..t.count.min(WIRES)], a, b)?;
    let message = t.wires[place].message;
    Some(Found { place, message })
}
