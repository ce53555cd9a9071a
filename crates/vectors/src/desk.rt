// The table at hand, and what a command does to it.
use crate::change;
use crate::command::{Command, byte};
use crate::words::Word;
use rules::Event;
use table::{DONE, Table};

// The places where tables are kept.
const PLACES: usize = 10;

// The tables kept and the one at hand; the wire that the next message is laid on, where it is not sent; what the last command gave back, as
// the number that is printed.
#[derive(Drop)]
pub struct Desk {
    kept: [Table; PLACES],
    hand: Table,
    wire: Option<usize>,
    pub number: u8,
}

impl Desk {
    // No table yet.
    pub fn bare() -> Desk {
        let blank = table::blank();
        Desk {
            kept: [blank; PLACES],
            hand: blank,
            wire: None,
            number: DONE,
        }
    }

    // The table at hand is kept at a place, where there is such a place.
    fn keep(&mut self, place: usize) {
        if let Some(table) = self.kept.get_mut(place) {
            *table = self.hand;
        }
    }

    // A table that was kept is at hand again.
    fn take(&mut self, place: usize) {
        if let Some(table) = self.kept.get(place) {
            self.hand = *table;
        }
    }

    // A fresh table is at hand, or one of no rooms where that is refused.
    fn begin(&mut self, n: u8) {
        (self.hand, self.number) = match table::fresh(n) {
            Ok(table) => (table, DONE),
            Err(refusal) => (table::blank(), refusal.into()),
        };
    }

    // The table at hand is stepped, or stays where that is refused.
    fn step(&mut self, event: Event) {
        self.number = match step::step(self.hand, event) {
            Ok(table) => {
                self.hand = table;
                DONE
            }
            Err(refusal) => refusal.into(),
        };
    }

    // A command on the table at hand.
    fn answer(&mut self, rt: &impl Print, c: &Command) {
        if let Some(event) = c.event() {
            self.step(event);
        } else if c.word == Some(Word::Fresh) {
            self.begin(byte(c.values[0]));
        } else {
            change::change(rt, &mut self.hand, self.wire, c);
            self.number = DONE;
        }
        self.wire = None;
    }

    // A command is carried out.
    pub fn obey(&mut self, rt: &impl Print, c: &Command) {
        let [a, ..] = c.values;
        match c.word {
            Some(Word::Keep) => self.keep(a),
            Some(Word::Take) => self.take(a),
            Some(Word::At) => self.wire = Some(a),
            _ => self.answer(rt, c),
        }
    }
}
