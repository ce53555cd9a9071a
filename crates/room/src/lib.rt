// One room's record by value: what it owns, and how lending, passing, settling and taking a message change it.
// Each method returns the changed record and, beside it, what is to be sent.
#![tactic(auto)]

ghost use Rattle.std.specs.Prelude.{◌≡◌};
ghost use Rattle.room.specs.Record.{entry_at, set_entry, blank_room};
ghost use Rattle.room.specs.Owned.{owned, has_no_entries};
ghost use Rattle.room.specs.Rules.{lent, passed, reduce_to, settled, granted, tokened, reduced, leaving};

mod parts; // parts.rt: an entry, a lender, the stronger mode, the next link number

use parts::{entry_of, larger, lender_in, next_link};

// The rooms that one table can have, as n has the number.
pub const MOST_ROOMS: u8 = 16;
// The same number as a length: of a table's records, and of a record's entries.
pub const ROOMS: usize = MOST_ROOMS as usize;
// No link number is above this one.
pub const LAST_LINK: u32 = 4294967295;

// What a room has lent to another: mode none means no entry.
#[derive(Clone, Copy, PartialEq, Eq)]
pub struct Entry {
    pub mode: u8,
    pub link: u32,
}

// No entry.
const NO_ENTRY: Entry = Entry {
    mode: modes::NONE,
    link: 0,
};

// A room's record, as the specification lists it: `token` is a fact by itself, on which no other field waits, and there is an entry for each room.
#[derive(Clone, Copy, PartialEq, Eq)]
pub struct Room {
    pub held: u8,
    pub wanted: u8,
    pub token: bool,
    pub toward: u8,
    pub lender: Option<u8>,
    pub credit: u8,
    pub link: u32,
    pub counter: u32,
    pub entries: [Entry; ROOMS],
}

// A REDUCE that a record has to send to its lender.
#[derive(Clone, Copy, PartialEq, Eq)]
pub struct Reduce {
    pub to: u8,
    pub link: u32,
    pub mode: u8,
}

// A record that has changed, and what it sends, if anything.
#[derive(Clone, Copy, PartialEq, Eq)]
pub struct Changed {
    pub room: Room,
    pub send: Option<Reduce>,
}

// A record that has lent, the loan's link number, and whether a number above the last was needed. The number stays beside the flag: the
// rules lend under the last one again, and only the step as a whole is refused.
#[derive(Clone, Copy, PartialEq, Eq)]
pub struct Lent {
    pub room: Room,
    pub link: u32,
    pub worn: bool,
}

// A record that has passed the token on, the owned mode that remains, and as for a loan. Not one type with Lent, which has nothing that
// remains: `lent` and `passed` are two rules.
#[derive(Clone, Copy, PartialEq, Eq)]
pub struct Passed {
    pub room: Room,
    pub rest: u8,
    pub link: u32,
    pub worn: bool,
}

impl Room {
    // All none or zero.
    pub fn blank() -> Room
        ensures { result ≡ blank_room }
    {
        Room {
            held: modes::NONE,
            wanted: modes::NONE,
            token: false,
            toward: 0,
            lender: None,
            credit: modes::NONE,
            link: 0,
            counter: 0,
            entries: [NO_ENTRY; ROOMS],
        }
    }

    // The entry for room c, none where the record has no place for it.
    fn entry(self, c: u8) -> Entry
        ensures { result ≡ entry_at self c }
    {
        self.entries
            .get(usize::from(c))
            .copied()
            .unwrap_or(NO_ENTRY)
    }

    // The record with this entry for room c, where it has a place for one.
    fn with_entry(self, c: u8, e: Entry) -> Room
        ensures { result ≡ set_entry self c e }
    {
        let at = usize::from(c);
        let mut room = self;
        if at < ROOMS {
            room.entries[at] = e;
        }
        room
    }

    // The strongest of the held mode and the entries.
    pub fn owned(self) -> u8
        ensures { result ≡ Rattle.room.specs.Owned.owned self }
    {
        let mut best = self.held;
        for e in &self.entries {
            best = larger(best, e.mode);
        }
        best
    }

    // Whether nothing is lent.
    pub fn has_no_entries(self) -> bool
        ensures { result ≡ has_no_entries self }
    {
        for e in &self.entries {
            match e.mode {
                modes::NONE => {}
                modes::IR..=255 => return false,
            }
        }
        true
    }

    // Lend m to y.
    pub fn lend(self, y: u8, m: u8) -> Lent
        ensures { result ≡ lent self y m }
    {
        let link = next_link(self.counter);
        let mut room = self.with_entry(y, entry_of(m, link));
        room.counter = link;
        Lent {
            room,
            link,
            worn: self.counter >= LAST_LINK,
        }
    }

    // Pass the token to w.
    #[tactic(auto, using(crate::proofs::Laws::passed_free, crate::proofs::Laws::passed_owing))]
    pub fn pass(self, w: u8) -> Passed
        ensures { result ≡ passed self w }
    {
        let link = next_link(self.counter);
        let mut room = self.with_entry(w, NO_ENTRY);
        let rest = room.owned();
        room.token = false;
        room.toward = w;
        room.counter = link;
        let worn = self.counter >= LAST_LINK;
        match rest {
            modes::NONE => {}
            modes::IR..=255 => {
                room.lender = lender_in(w);
                room.credit = rest;
                room.link = link;
            }
        }
        Passed {
            room,
            rest,
            link,
            worn,
        }
    }

    // The REDUCE to its lender by which what it owes falls to this mode. Only a damaged record has a credit and no lender: no room has its number.
    fn reduce_to(self, mode: u8) -> Reduce
        ensures { result ≡ reduce_to self mode }
    {
        Reduce {
            to: self.lender.unwrap_or(u8::MAX),
            link: self.link,
            mode,
        }
    }

    // Without the token: what is owed falls to what is owned.
    #[tactic(auto, unfolding(crate::specs::Rules::settled, crate::specs::Rules::credited))]
    pub fn settle(self) -> Changed
        ensures { result ≡ settled self }
    {
        let now = self.owned();
        if !modes::stronger(self.credit, now) {
            return Changed {
                room: self,
                send: None,
            };
        }
        let send = Some(self.reduce_to(now));
        let mut room = self;
        room.credit = now;
        match now {
            modes::NONE => {
                room.lender = None;
                room.link = 0;
            }
            modes::IR..=255 => {}
        }
        Changed { room, send }
    }

    // What taking a loan or the token from a sends to another lender.
    #[tactic(auto, unfolding(crate::specs::Rules::leaving, crate::specs::Record::is_lender))]
    fn leave(self, a: u8) -> Option<Reduce>
        ensures { result ≡ leaving self a }
    {
        let lender = self.lender?;
        if lender == a {
            return None;
        }
        Some(self.reduce_to(modes::NONE))
    }

    // Take a GRANT from a.
    #[tactic(auto, unfolding(crate::specs::Rules::granted))]
    pub fn take_grant(self, a: u8, mode: u8, link: u32) -> Changed
        ensures { result ≡ granted self a mode link }
    {
        let send = self.leave(a);
        let mut room = self;
        room.lender = lender_in(a);
        room.link = link;
        room.credit = mode;
        room.held = mode;
        room.wanted = modes::NONE;
        Changed { room, send }
    }

    // Take the TOKEN from a, as room me.
    #[tactic(auto, using(crate::proofs::Laws::tokened_by_max))]
    pub fn take_token(self, me: u8, a: u8, mode: u8, rest: u8, link: u32) -> Changed
        ensures { result ≡ tokened self me a mode rest link }
    {
        let send = self.leave(a);
        let mut room = self.with_entry(a, entry_of(rest, link));
        room.held = mode;
        room.wanted = modes::NONE;
        room.token = true;
        room.toward = me;
        room.lender = None;
        room.credit = modes::NONE;
        room.link = 0;
        room.counter = self.counter.max(link);
        Changed { room, send }
    }

    // Take a REDUCE from a: only the loan that it names falls.
    #[tactic(auto, unfolding(crate::specs::Rules::reduced))]
    pub fn take_reduce(self, a: u8, link: u32, mode: u8) -> Room
        ensures { result ≡ reduced self a link mode }
    {
        let e = self.entry(a);
        if e.link != link {
            return self;
        }
        if !modes::stronger(e.mode, mode) {
            return self;
        }
        self.with_entry(a, entry_of(mode, link))
    }
}
