// Which event comes next: one of a session, or one of a drain, in several orders.
use crate::numbers::{below, byte};
use rules::{Event, Kind};
use table::{Table, WIRES, Wire};

// The order of a drain.
#[derive(Clone, Copy)]
pub enum Order {
    // The oldest message first, and hand-backs when there is none.
    Oldest,
    // Hand-backs first, then the wire of the newest message.
    Newest,
    // One wire starved to the end: the other wires first, then hand-backs, and it when neither is left.
    Starved,
    // Some message or a hand-back.
    Random,
}

pub const ORDERS: [Order; 4] = [Order::Oldest, Order::Newest, Order::Starved, Order::Random];

// An event of one room, picked with a mode by a random number.
fn of_a_room(kind: Kind, t: &Table, r: usize) -> Event {
    Event {
        kind: kind.into(),
        room: byte(below(usize::from(t.n), r)),
        other: 0,
        mode: byte(r / 256 % 5 + 1),
    }
}

fn hand_back(room: usize) -> Event {
    Event {
        kind: Kind::HandBack.into(),
        room: byte(room),
        other: 0,
        mode: 0,
    }
}

// The delivery on the wire of a message.
fn delivery(w: &Wire) -> Event {
    Event {
        kind: Kind::Deliver.into(),
        room: w.from,
        other: w.to,
        mode: 0,
    }
}

// The messages under way, the oldest first.
fn messages(t: &Table) -> &[Wire] {
    &t.wires[..t.count.min(WIRES)]
}

// The delivery of the message that a random number picks, if there is one.
fn some_delivery(t: &Table, r: usize) -> Option<Event> {
    let all = messages(t);
    all.get(below(all.len(), r)).map(delivery)
}

// An event of a session: some room asks.
pub fn ask(t: &Table, r: usize) -> Option<Event> {
    Some(of_a_room(Kind::Ask, t, r / 8))
}

// Of eight events that are mixed two ask, one upgrades, two hand back, and three deliver some message, if there is one.
pub fn mixed(t: &Table, r: usize) -> Option<Event> {
    let rest = r / 8;
    match r % 8 {
        0..=1 => ask(t, r),
        2 => Some(of_a_room(Kind::Upgrade, t, rest)),
        3..=4 => Some(of_a_room(Kind::HandBack, t, rest)),
        _ => some_delivery(t, rest),
    }
}

// Whether two messages are on one wire.
fn on_one_wire(a: &Wire, b: &Wire) -> bool {
    (a.from, a.to) == (b.from, b.to)
}

// The first room that holds and does not wait.
fn first_holder(t: &Table) -> Option<usize> {
    t.rooms.iter().position(|r| r.wanted == 0 && r.held != 0)
}

// Whether nothing is under way and nobody waits.
pub fn rests(t: &Table) -> bool {
    messages(t).is_empty() && t.rooms.iter().all(|r| r.wanted == 0)
}

impl Order {
    // What comes next in a drain; nothing where no message is under way and no room holds without waiting.
    pub fn next(self, t: &Table, r: usize, starved: &Wire) -> Option<Event> {
        let holder = first_holder(t).map(hand_back);
        let all = messages(t);
        let oldest = all.first().map(delivery);
        match self {
            Order::Oldest => oldest.or(holder),
            Order::Newest => holder.or(all.last().map(delivery)),
            Order::Starved => {
                let other = all.iter().find(|w| !on_one_wire(w, starved));
                other.map(delivery).or(holder).or(oldest)
            }
            Order::Random => {
                let some = some_delivery(t, r / 2);
                if r % 2 == 0 {
                    holder.or(some)
                } else {
                    some.or(holder)
                }
            }
        }
    }
}
