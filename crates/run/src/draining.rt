// A drain: nobody asks or upgrades any more. Its contracts carry that the table comes to rest, how soon, and that everyone is served.
ghost use Rattle.std.specs.Prelude.{◌≡◌};
ghost use Rattle.run.specs.Runs.{events_of};
ghost use Rattle.run.specs.Drains.{after_of, IsDrained, IsLeft};

use crate::event::Events;
use rules::{Event, Kind};
use table::Table;

// The steps that can be left for each two rooms, a room with itself among them.
const FOR_TWO_ROOMS: usize = 3;
// The steps that can be left for each room besides.
const FOR_A_ROOM: usize = 8;

// A table, and the steps accepted on the way to it.
#[derive(Clone, Copy)]
pub struct Drained {
    pub table: Table,
    pub steps: usize,
}

// The table after a delivery or a hand-back that is accepted; nothing where it is refused, or an event of another kind.
#[tactic(auto, using(crate::proofs::Drains::after_unknown, crate::proofs::Drains::after_other, crate::proofs::Drains::after_made))]
fn after(t: Table, e: Event) -> Option<Table>
    ensures { result ≡ after_of t e }
{
    match Kind::try_from(e.kind).ok()? {
        Kind::HandBack | Kind::Deliver => step::step(t, e).ok(),
        Kind::Ask | Kind::Upgrade => None,
    }
}

// The table after the deliveries and hand-backs among the events, and how many of them were accepted. A refused one leaves the table,
// an event of another kind is passed over, and so are bytes that are no whole event.
pub fn drain(t: Table, events: &[u8]) -> Drained
    ensures { IsDrained t (events_of events.now) result }
{
    let mut table = t;
    let mut steps = 0;
    for e in Events(events) {
        if let Some(next) = after(table, e) {
            table = next;
            steps += 1;
        }
    }
    Drained { table, steps }
}

// 3n² + 8n + m with m messages on the wires: from a table that events led to from a fresh one no more deliveries and hand-backs are
// accepted. 0 where the table is not well formed: then none is, so 0 is the bound there too and no Option is needed.
#[tactic(auto, using(crate::proofs::Left::left_sizes))]
pub fn steps_left(t: Table) -> usize
    ensures { IsLeft t result }
{
    if !formed::well_formed(t) {
        return 0;
    }
    let n = usize::from(t.n);
    FOR_TWO_ROOMS * (n * n) + FOR_A_ROOM * n + t.count
}
