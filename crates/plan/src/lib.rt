// What a step is going to do, worked out on the table as it came: the first refusal that applies, or what the rules make of one room.
// Nothing is written here.
#![tactic(auto)]

ghost use Rattle.std.specs.Prelude.{◌≡◌, ◌<◌, true, ◌&&◌};
ghost use Rattle.room.specs.Limits.{room_limit};
ghost use Rattle.table.specs.Tables.{room_at};
ghost use Rattle.rules.specs.Events as events;
ghost use Rattle.plan.specs.Plans.{start_at, planned_in, placed, plan_as, Begins};

use act::{Desk, Start};
use room::MOST_ROOMS;
use rules::{Event, Kind};
use std::marker::Model;
use table::{Refusal, Table, WIRES};

// An ASK is refused from this many messages on the wires,
pub const BUSY_MESSAGES: usize = 96;
// and from this counter on.
pub const WORN_COUNTER: u32 = 4294967000;

// What room me has done, and at which place it took a message from the wires, if it took one.
#[derive(Clone, Copy)]
pub struct Plan {
    pub me: u8,
    pub taken: Option<usize>,
    pub done: Desk,
}

// A plan says no more than its fields: the model is there so that it is copied as each of them is, a desk, which has a model, too.
impl Model for Plan {
    ghost use Rattle.plan.specs.Plans.{Making};

    ghost Value = { Making };

    ghost view = { λ p. record { me = p.me; taken = p.taken; done = p.done } };

    ghost inverse = { λ p. record { me = p.me; taken = p.taken; done = p.done } };
}

// Room x before it acts, and the queue.
// Only for proved callers in this crate: the table has the room.
fn start(t: Table, x: u8) -> Start
    requires { x < room_limit }
    ensures { result ≡ start_at x (room_at t x) t.queue t.queued }
{
    let room = t.rooms[x as usize];
    Start {
        me: x,
        room,
        queue: t.queue,
        queued: t.queued,
    }
}

// ASK. Each of the four events asks the same of its own kind (`Begins`): a struct that carries it would hold the table once more. And each
// tests the room by its own `match`: a function for the one test that three share would be no shorter.
// Only for planned, which is proved: the kind is known and the table has the room.
fn ask(t: Table, e: Event) -> Result<Plan, Refusal>
    requires { Begins t e events.ASK }
    ensures { planned_in result ≡ plan_as true t e }
{
    match e.mode {
        modes::IR..=modes::W => {}
        _ => return Err(Refusal::Mode),
    }
    let room = t.rooms[e.room as usize];
    match room.wanted {
        modes::NONE => {}
        modes::IR..=255 => return Err(Refusal::Waiting),
    }
    match room.held {
        modes::NONE => {}
        modes::IR..=255 => return Err(Refusal::Held),
    }
    if t.count >= BUSY_MESSAGES {
        return Err(Refusal::Busy);
    }
    for r in &t.rooms[..t.n as usize] {
        if r.counter >= WORN_COUNTER {
            return Err(Refusal::Worn);
        }
    }
    let done = act::ask(start(t, e.room), e.mode);
    Ok(Plan {
        me: e.room,
        taken: None,
        done,
    })
}

// UPGRADE.
// Only for planned, which is proved: the kind is known and the table has the room.
fn upgrade(t: Table, e: Event) -> Result<Plan, Refusal>
    requires { Begins t e events.UPGRADE }
    ensures { planned_in result ≡ plan_as true t e }
{
    let room = t.rooms[e.room as usize];
    match room.wanted {
        modes::NONE => {}
        modes::IR..=255 => return Err(Refusal::Waiting),
    }
    match room.held {
        modes::U => {}
        _ => return Err(Refusal::NotHeld),
    }
    let done = act::upgrade(start(t, e.room));
    Ok(Plan {
        me: e.room,
        taken: None,
        done,
    })
}

// HANDBACK.
// Only for planned, which is proved: the kind is known and the table has the room.
fn hand_back(t: Table, e: Event) -> Result<Plan, Refusal>
    requires { Begins t e events.HANDBACK }
    ensures { planned_in result ≡ plan_as true t e }
{
    let room = t.rooms[e.room as usize];
    match room.wanted {
        modes::NONE => {}
        modes::IR..=255 => return Err(Refusal::Waiting),
    }
    match room.held {
        modes::NONE => return Err(Refusal::NotHeld),
        modes::IR..=255 => {}
    }
    let done = act::hand_back(start(t, e.room));
    Ok(Plan {
        me: e.room,
        taken: None,
        done,
    })
}

// DELIVER.
// Only for planned, which is proved: the kind is known and the table has the room.
fn deliver(t: Table, e: Event) -> Result<Plan, Refusal>
    requires { Begins t e events.DELIVER }
    ensures { planned_in result ≡ plan_as true t e }
{
    if e.other >= t.n {
        return Err(Refusal::Room);
    }
    let Some(found) = table::oldest(t, e.room, e.other) else {
        return Err(Refusal::Empty);
    };
    let done = act::receive(start(t, e.other), e.room, found.message);
    Ok(Plan {
        me: e.other,
        taken: Some(found.place),
        done,
    })
}

// What a step on t by e is going to do, for any table and any event. formed tells whether t is well formed, and is believed as long as
// the arrays have a place for each room and message.
pub fn planned(t: Table, e: Event, formed: bool) -> Result<Plan, Refusal>
    ensures { planned_in result ≡ plan_as (formed && placed t) t e }
{
    if !formed {
        return Err(Refusal::Table);
    }
    if t.n > MOST_ROOMS {
        return Err(Refusal::Table);
    }
    if t.count > WIRES {
        return Err(Refusal::Table);
    }
    let kind = Kind::try_from(e.kind)?;
    if e.room >= t.n {
        return Err(Refusal::Room);
    }
    // four kinds and no more: closures would only hide which is which
    match kind {
        Kind::Ask => ask(t, e),
        Kind::Upgrade => upgrade(t, e),
        Kind::HandBack => hand_back(t, e),
        Kind::Deliver => deliver(t, e),
    }
}
