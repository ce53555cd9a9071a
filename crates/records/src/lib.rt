// The rooms' records: each as it should be, or blank, and what is seen of them.
// Modes are numbers here, as in the specification: a `match` with ranges catches every code outside, and NONE is a mode.
#![tactic(auto)]

ghost use Rattle.std.specs.Prelude.{◌≡◌, ◌≤◌};
ghost use Rattle.room.specs.Limits.{room_limit};
ghost use Rattle.table.specs.Formed.{entry_fine, entries_fine, holds_rightly, owes_rightly};
ghost use Rattle.records.specs.Parts.{room_place_fine};
ghost use Rattle.records.specs.Seen.{no_standing, standing, standing_at, seen_in};

use modes::{IR, IW, NONE, R, U, W, is_code};
use room::{Entry, ROOMS, Room};

// What the queue and the messages are tested against: the mode that a room waits for, and whether it has the token, which is a fact by itself.
#[derive(Clone, Copy)]
pub struct Standing {
    pub due: u8,
    pub token: bool,
}

// Of a room that does not wait and has no token.
pub const NO_STANDING: Standing = Standing {
    due: NONE,
    token: false,
};

// The rooms of a table, told by their standings: n of them are in use.
#[derive(Clone, Copy)]
pub struct Standings {
    pub n: u8,
    pub rooms: [Standing; ROOMS],
}

impl Standings {
    // The standing of room c; none where there is no such room.
    pub fn of(&self, c: u8) -> Standing
        ensures value { result ≡ standing_at self.now.rooms c }
        ensures past { room_limit ≤ c → result ≡ no_standing }
    {
        self.rooms
            .get(usize::from(c))
            .copied()
            .unwrap_or(NO_STANDING)
    }
}

// What is seen of rooms that are all as they should be: how many have the token, and each room's standing.
#[derive(Clone, Copy)]
pub struct Seen {
    pub tokens: usize,
    pub standings: Standings,
}

// Whether an entry for room j can stand in the record of room c of n. Here and below n and c are two numbers, as in the
// specification's clauses: a struct of both would say no more.
#[tactic(auto, unfolding(table::specs::Formed::entry_fine))]
fn entry_fine(n: u8, c: u8, j: u8, e: Entry) -> bool
    ensures { result ≡ entry_fine n c j e }
{
    match e.mode {
        NONE => e.link == 0,
        IR..=W => j < n && j != c,
        6..=255 => false,
    }
}

// The entries of room c of n.
fn entries_fine(n: u8, c: u8, entries: &[Entry; ROOMS]) -> bool
    ensures { result ≡ entries_fine n c entries.now }
{
    entries
        .iter()
        .enumerate()
        .all(|(j, e)| entry_fine(n, c, j as u8, *e))
}

// A room's held and wanted modes: U and W are held only with the token, and W alone may be wanted beside U.
#[tactic(auto, unfolding(table::specs::Formed::holds_rightly))]
fn holds_rightly(held: u8, wanted: u8, token: bool) -> bool
    ensures { result ≡ holds_rightly held wanted token }
{
    match held {
        NONE => is_code(wanted),
        IR | R | IW => wanted == NONE,
        U => token && (wanted == NONE || wanted == W),
        W => token && wanted == NONE,
        6..=255 => false,
    }
}

// The lender, the credit and the link number of room c of n.
#[tactic(auto, unfolding(table::specs::Formed::owes_rightly, room::specs::Record::is_lender))]
fn owes_rightly(n: u8, c: u8, r: Room) -> bool
    ensures { result ≡ owes_rightly n c r }
{
    match (r.lender, r.credit) {
        (None, NONE) => r.link == 0,
        (Some(l), IR..=W) => l < n && l != c && !r.token,
        (None, IR..=255) | (Some(_), NONE | 6..=255) => false,
    }
}

// The record at place c: as it should be where the place is one of n in use, else blank.
#[tactic(auto, unfolding(crate::specs::Parts::room_place_fine, table::specs::Formed::room_fine))]
fn room_fine(n: u8, c: u8, r: Room) -> bool
    ensures { result ≡ room_place_fine n c r }
{
    if c >= n {
        return r == Room::blank();
    }
    r.toward < n
        && (r.toward == c) == r.token
        && holds_rightly(r.held, r.wanted, r.token)
        && owes_rightly(n, c, r)
        && entries_fine(n, c, &r.entries)
}

// A room's standing: with a held mode it waits for nothing, but perhaps for an upgrade, which nobody names.
// No `From`: a standing is less than a record, and not a record in another form.
#[tactic(auto, unfolding(crate::specs::Seen::standing, table::specs::Formed::due))]
fn standing_of(r: Room) -> Standing
    ensures { result ≡ standing r }
{
    match r.held {
        NONE => Standing {
            due: r.wanted,
            token: r.token,
        },
        IR..=255 => Standing {
            due: NONE,
            token: r.token,
        },
    }
}

// All the rooms, of which n are in use; nothing where one is not as it should be.
pub fn look_over(n: u8, rooms: &[Room; ROOMS]) -> Option<Seen>
    ensures { result ≡ seen_in n rooms.now }
{
    let mut standings = [NO_STANDING; ROOMS];
    let mut tokens = 0;
    for (c, r) in rooms.iter().enumerate() {
        if !room_fine(n, c as u8, *r) {
            return None;
        }
        standings[c] = standing_of(*r);
        tokens += usize::from(r.token);
    }
    Some(Seen {
        tokens,
        standings: Standings {
            n,
            rooms: standings,
        },
    })
}
