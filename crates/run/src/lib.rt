// A run: events made one after another from a fresh table. Its contract carries what holds of every table that events lead to.
#![tactic(auto)]

ghost use Rattle.std.specs.Prelude.{◌≡◌};
ghost use Rattle.table.specs.Tables.{blank_table, answer_in};
ghost use Rattle.rules.specs.Step.{runs};
ghost use Rattle.run.specs.Runs.{events_of, Ran};

pub mod draining; // draining.rt: deliveries and hand-backs alone
mod event; // event.rt: events in bytes, one after another

use event::Events;
use table::{Refusal, Table};

// The bytes of an event: its kind, room, other and mode.
pub const EVENT_BYTES: usize = 4;

// The table after all events, refused ones among them.
fn made(t: Table, events: &[u8]) -> Table
    ensures { result ≡ runs t (events_of events.now) }
{
    Events(events).fold(t, |u, e| step::step(u, e).unwrap_or(u))
}

// A fresh table of n rooms after the events; where n is refused no event is made. Bytes that are no whole event are left.
pub fn run(n: u8, events: &[u8]) -> Result<Table, Refusal>
    ensures { Ran n (events_of events.now) (answer_in blank_table result) }
{
    let fresh = table::fresh(n)?;
    Ok(made(fresh, events))
}
