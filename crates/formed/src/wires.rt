// The messages: what each holds and names, and the wires that are not in use, which are blank.
ghost use Rattle.std.specs.Prelude.{◌≡◌};
ghost use Rattle.std.specs.List.{list_all};
ghost use Rattle.table.specs.Formed.{message_fine, names_rightly, wire_fine, is_blank_wire};
ghost use Rattle.formed.specs.Standings.{rooms_of};
ghost use Rattle.formed.specs.Names.{carried_by};

use super::ranges::{is_granted, is_mode};
use modes::is_code;
use records::Standings;
use table::{Message, NO_WIRE, Wire};

// The room that a message names, and how many tokens it carries.
#[derive(Clone, Copy)]
pub struct Carried {
    pub room: Option<u8>,
    pub tokens: usize,
}

// The codes and the room number in a message.
#[tactic(auto, unfolding(table::specs::Formed::message_fine))]
fn message_fine(n: u8, message: Message) -> bool
    ensures { result ≡ message_fine n message }
{
    match message {
        Message::Nothing => false,
        Message::Request { origin, mode, .. } => origin < n && is_mode(mode),
        Message::Grant { mode, .. } => is_granted(mode),
        Message::Token { mode, rest, .. } => is_mode(mode) && is_code(rest),
        Message::Reduce { mode, .. } => is_code(mode),
    }
}

// Whether a message names a room that waits for its mode, and is no GRANT to the room with the token.
#[tactic(auto, unfolding(table::specs::Formed::names_rightly, table::specs::Formed::due))]
fn names_rightly(standings: &Standings, w: Wire) -> bool
    ensures { result ≡ names_rightly (rooms_of standings.now.rooms) w.to w.message }
{
    match w.message {
        Message::Nothing | Message::Reduce { .. } => true,
        Message::Request { origin, mode, .. } => standings.of(origin).due == mode,
        Message::Grant { mode, .. } => {
            let room = standings.of(w.to);
            room.due == mode && !room.token
        }
        Message::Token { mode, .. } => standings.of(w.to).due == mode,
    }
}

// A wire in use: it goes from one of n rooms to another, with a message as it should be.
#[tactic(auto, unfolding(table::specs::Formed::wire_fine))]
pub fn wire_fine(standings: &Standings, w: Wire) -> bool
    ensures { result ≡ wire_fine standings.now.n (rooms_of standings.now.rooms) w }
{
    w.from < standings.n
        && w.to < standings.n
        && w.from != w.to
        && message_fine(standings.n, w.message)
        && names_rightly(standings, w)
}

// Whether wires that are not in use are blank.
#[tactic(auto, unfolding(table::specs::Formed::is_blank_wire, table::specs::Formed::is_nothing))]
pub fn are_blank(wires: &[Wire]) -> bool
    ensures { result ≡ list_all is_blank_wire wires.now }
{
    wires.iter().all(|w| *w == NO_WIRE)
}

// The room that a message names and the tokens that it carries.
#[tactic(auto, unfolding(crate::specs::Names::carried_by))]
pub fn carried_by(w: Wire) -> Carried
    ensures { result ≡ carried_by w.to w.message }
{
    match w.message {
        Message::Nothing | Message::Reduce { .. } => Carried {
            room: None,
            tokens: 0,
        },
        Message::Request { origin, .. } => Carried {
            room: Some(origin),
            tokens: 0,
        },
        Message::Grant { .. } => Carried {
            room: Some(w.to),
            tokens: 0,
        },
        Message::Token { .. } => Carried {
            room: Some(w.to),
            tokens: 1,
        },
    }
}
