// The test of well-formedness. Each room, each place of the queue and each wire is looked at once.
#![tactic(auto)]

ghost use Rattle.std.specs.Prelude.{◌≡◌};
ghost use Rattle.table.specs.Formed.{well_formed};
ghost use Rattle.formed.specs.Names.{times_fine};
ghost use Rattle.formed.specs.Tally.{tally_of};

mod queue; // queue.rt: the places of the queue
mod ranges; // ranges.rt: modes and sizes in range
mod wires; // wires.rt: the messages

use modes::NONE;
use records::Standings;
use room::ROOMS;
use table::Table;

// What is counted in a table whose parts are all as they should be:
// how often its queue and its messages name each room, and the tokens with rooms and in messages.
// The counts stand beside the standings and not in them: they are counted while the standings are only read.
#[derive(Clone, Copy)]
struct Tally {
    standings: Standings,
    times: [usize; ROOMS],
    tokens: usize,
}

impl Tally {
    // Whether each room in use is named once if it waits, else never.
    fn times_fine(&self) -> bool
        ensures { result ≡ times_fine self.now.standings.n self.now.standings.rooms self.now.times }
    {
        let in_use = usize::from(self.standings.n);
        self.standings
            .rooms
            .iter()
            .zip(&self.times)
            .take(in_use)
            .all(|(room, named)| *named == usize::from(room.due != NONE))
    }
}

// The rooms, the queue and the wires are looked over in turn; nothing where a part is not as it should be.
fn tally_of(t: &Table) -> Option<Tally>
    ensures { result ≡ tally_of t.now }
{
    if !ranges::sizes_fit(t.n, t.queued, t.count) {
        return None;
    }
    let (queue, places) = t.queue.split_at(t.queued);
    let (messages, wires) = t.wires.split_at(t.count);
    let seen = records::look_over(t.n, &t.rooms)?;
    let mut times = queue::look_over(&seen.standings, queue)?;
    let mut tokens = seen.tokens;
    for w in messages {
        if !wires::wire_fine(&seen.standings, *w) {
            return None;
        }
        let carried = wires::carried_by(*w);
        if let Some(room) = carried.room {
            times[usize::from(room)] += 1;
        }
        tokens += carried.tokens;
    }
    let blank = queue::are_blank(places) && wires::are_blank(wires);
    blank.then_some(Tally {
        standings: seen.standings,
        times,
        tokens,
    })
}

// Whether a table is well formed: each part is as it should be, there is one token, and each waiting room is named once.
pub fn well_formed(t: Table) -> bool
    ensures { result ≡ well_formed t }
{
    tally_of(&t).is_some_and(|tally| tally.tokens == 1 && tally.times_fine())
}
