// One drain, and the longest of several.
use crate::choice::{self, ORDERS, Order};
use crate::numbers::Numbers;
use rules::Event;
use run::draining::{Drained, steps_left};
use table::{Refusal, Table};

// The sessions for each number of rooms.
const SESSIONS: usize = 6;
// The events of a session, and those behind them that only ask.
const EVENTS: usize = 200;

const LAST: usize = 48;
// More steps than any table has left, which are 1,152 at most.
const ENDLESS: usize = 2000;

// A drain that left nothing under way and nobody waiting: the steps accepted, and how many there can be at most.
#[derive(Clone, Copy, Default)]
pub struct Trial {
    pub steps: usize,
    pub most: usize,
}

// The table after so many events of a session, refused ones among them.
fn made<F: Fn(&Table, usize) -> Option<Event>>(
    start: Table,
    seed: usize,
    events: usize,
    next: F,
) -> Table
    requires { F.IsAlwaysCallable next }
{
    let mut t = start;
    for r in Numbers::after(seed).take(events) {
        if let Some(e) = next(&t, r) {
            t = step::step(t, e).unwrap_or(t);
        }
    }
    t
}

// The table that a session of n rooms leaves; refused where no table has n rooms.
fn session(n: u8, seed: usize) -> Result<Table, Refusal> {
    let fresh = table::fresh(n)?;
    let mixed = made(fresh, seed, EVENTS, choice::mixed);
    Ok(made(mixed, seed, LAST, choice::ask))
}

// The table at the end of a drain, and the steps to it. It ends where nothing is left to do, and at an event that is refused.
// The wire of the oldest message at the start is the one that a drain may starve.
fn drained(start: Table, order: Order, seed: usize) -> Drained {
    let starved = start.wires[0];
    let mut t = start;
    for (steps, r) in Numbers::after(seed).take(ENDLESS).enumerate() {
        let event = order.next(&t, r, &starved);
        let Some(next) = event.and_then(|e| step::step(t, e).ok()) else {
            return Drained { table: t, steps };
        };
        t = next;
    }
    Drained {
        table: t,
        steps: ENDLESS,
    }
}

// A drain of a table in one order; nothing where it took too many steps, or left a message or somebody who waits.
fn tried(start: Table, order: Order, seed: usize) -> Option<Trial> {
    let most = steps_left(start);
    let Drained { table, steps } = drained(start, order, seed);
    (choice::rests(&table) && steps <= most).then_some(Trial { steps, most })
}

// The longer one, the first where both are of one length.
fn longer(a: Trial, b: Trial) -> Trial {
    if b.steps > a.steps { b } else { a }
}

// The longest drain in all orders of the table that a session leaves; nothing where one failed.
fn longest_of(start: Table, seed: usize) -> Option<Trial> {
    ORDERS
        .into_iter()
        .try_fold(Trial::default(), |best, order| {
            Some(longer(best, tried(start, order, seed)?))
        })
}

// The longest drain of n rooms; nothing where one failed.
pub fn longest(n: u8) -> Option<Trial> {
    let first = usize::from(n) * SESSIONS;
    (first..first + SESSIONS).try_fold(Trial::default(), |best, seed| {
        let start = session(n, seed).ok()?;
        Some(longer(best, longest_of(start, seed)?))
    })
}
