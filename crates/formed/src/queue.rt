// The places of the queue: each in use names a waiting room, and the others are blank.
ghost use Rattle.std.specs.Prelude.{◌≡◌, ◌<◌, true};
ghost use Rattle.std.specs.List.{list_all};
ghost use Rattle.room.specs.Limits.{room_limit};
ghost use Rattle.table.specs.Formed.{queued_fine, is_blank_queued};
ghost use Rattle.formed.specs.Standings.{rooms_of};
ghost use Rattle.formed.specs.Names.{named_in};

use super::ranges::is_mode;
use records::Standings;
use room::ROOMS;
use table::{NO_QUEUED, Queued};

// A place in use: it names a waiting room of the n, with its mode.
#[tactic(auto, unfolding(table::specs::Formed::queued_fine, table::specs::Formed::due))]
fn place_fine(standings: &Standings, q: Queued) -> bool
    ensures fine { result ≡ queued_fine standings.now.n (rooms_of standings.now.rooms) q }
    ensures low { result ≡ true → q.room < room_limit }
{
    q.room < standings.n && is_mode(q.mode) && standings.of(q.room).due == q.mode
}

// The places in use: how often each room is named; nothing where one is not as it should be.
pub fn look_over(standings: &Standings, queue: &[Queued]) -> Option<[usize; ROOMS]>
    ensures { result ≡ named_in standings.now.n standings.now.rooms queue.now }
{
    let mut times = [0; ROOMS];
    for q in queue {
        if !place_fine(standings, *q) {
            return None;
        }
        times[usize::from(q.room)] += 1;
    }
    Some(times)
}

// Whether places that are not in use are blank.
#[tactic(auto, unfolding(table::specs::Formed::is_blank_queued))]
pub fn are_blank(places: &[Queued]) -> bool
    ensures { result ≡ list_all is_blank_queued places.now }
{
    places.iter().all(|q| *q == NO_QUEUED)
}
