// What a command changes in a table. A place that there is not stays out.
use crate::command::{Command, byte, link};
use crate::words::Word;
use room::{Entry, Room};
use table::{Message, Queued, Table, WIRES, Wire};

// What is laid on the wires to fill them: it falls on nothing.
const FILLING: Wire = Wire {
    from: 1,
    to: 0,
    message: Message::Reduce {
        link: 7,
        mode: modes::NONE,
    },
};

// Another value at a place, or one more behind those in use where there is no such place.
fn lay<T: Copy>(places: &mut [T], used: &mut usize, at: Option<usize>, value: T) {
    match at {
        Some(place) if place < places.len() => places[place] = value,
        _ => {
            if let Some(next) = places.get_mut(*used) {
                *next = value;
                *used += 1;
            }
        }
    }
}

// Messages up to so many.
fn fill(t: &mut Table, count: usize) {
    for _ in t.count..count.min(WIRES) {
        lay(&mut t.wires, &mut t.count, None, FILLING);
    }
}

// Another entry of a record.
fn enter(room: &mut Room, c: &Command) {
    let [_, place, mode, number, _] = c.values;
    if let Some(entry) = room.entries.get_mut(place) {
        *entry = Entry {
            mode: byte(mode),
            link: link(number),
        };
    }
}

// The lender that a value names: a byte of 255 names nobody.
fn lender(value: usize) -> Option<u8> {
    match byte(value) {
        u8::MAX => None,
        l => Some(l),
    }
}

// Another field of a record, or another entry. A word that is not understood is told: what is printed is then not what is expected.
fn change_room(rt: &impl Print, room: &mut Room, c: &Command) {
    let [_, value, ..] = c.values;
    match c.word {
        Some(Word::Held) => room.held = byte(value),
        Some(Word::Wanted) => room.wanted = byte(value),
        Some(Word::Token) => room.token = value != 0,
        Some(Word::Toward) => room.toward = byte(value),
        Some(Word::Lender) => room.lender = lender(value),
        Some(Word::Credit) => room.credit = byte(value),
        Some(Word::Link) => room.link = link(value),
        Some(Word::Counter) => room.counter = link(value),
        Some(Word::Entry) => enter(room, c),
        _ => {
            let _ = println!(rt; "a word not understood");
        }
    }
}

// A place of the queue by its numbers.
fn queued(room: usize, mode: usize) -> Queued {
    Queued {
        room: byte(room),
        mode: byte(mode),
    }
}

// Another queue, other messages, other sizes, or another record of a room. A message is laid on the wire given.
pub fn change(rt: &impl Print, t: &mut Table, wire: Option<usize>, c: &Command) {
    let [a, b, d, ..] = c.values;
    if let Some(message) = c.wire() {
        lay(&mut t.wires, &mut t.count, wire, message);
        return;
    }
    match c.word {
        Some(Word::Fill) => fill(t, a),
        Some(Word::Join) => lay(&mut t.queue, &mut t.queued, None, queued(a, b)),
        Some(Word::Place) => lay(&mut t.queue, &mut t.queued, Some(a), queued(b, d)),
        Some(Word::Rooms) => t.n = byte(a),
        Some(Word::Queued) => t.queued = a,
        Some(Word::Count) => t.count = a,
        _ => {
            if let Some(room) = t.rooms.get_mut(a) {
                change_room(rt, room, c);
            }
        }
    }
}
