// The end of a step that is made: what a room has done is written into the table. Private: only proved callers use it.
ghost use Rattle.std.specs.Prelude.{◌≡◌, ◌<◌, ◌≤◌, ◌++◌, take, drop, IfSome};
ghost use Rattle.base.specs.Arrays.{padded};
ghost use Rattle.table.specs.Limits.{wire_limit};
ghost use Rattle.table.specs.Tables.{no_wire};
ghost use Rattle.plan.specs.Plans.{made_of};
ghost use Rattle.step.specs.Writes.{Fits, places_of, rest_of, written_of};

use plan::Plan;
use table::{NO_QUEUED, NO_WIRE, QUEUE, Queued, Table, WIRES, Wire};

// A queue in its places, with blanks behind it.
fn places_of(queue: &[Queued]) -> [Queued; QUEUE]
    ensures { result ≡ places_of queue.now }
{
    let queued = queue.len().min(QUEUE);
    let mut places = [NO_QUEUED; QUEUE];
    places[..queued].copy_from_slice(&queue[..queued]);
    places
}

// How many of so many messages are left where one is taken or none. Only for proved callers: the message that is taken is there.
pub fn left(count: usize, taken: Option<usize>) -> usize
    requires { IfSome taken (λ place. place < count) }
    ensures { result ≡ Rattle.step.specs.Writes.left count taken }
{
    match taken {
        None => count,
        Some(_) => count - 1,
    }
}

// Of the count messages on these wires the one that is taken goes: those behind it close up, and the last place is blank. Only for
// written, which is proved: the message is there.
fn take_out(wires: &mut [Wire; WIRES], count: usize, taken: Option<usize>)
    requires there { IfSome taken (λ place. place < count) }
    requires fits { count ≤ wire_limit }
    ensures { wires.new ≡ padded count no_wire (rest_of (take count wires.old) taken) ++ drop count wires.old }
{
    let Some(place) = taken else { return };
    wires.copy_within(place + 1..count, place);
    wires[count - 1] = NO_WIRE;
}

// The table after what room p.me did. The message that it took is taken out, and what it sent follows those that are left.
// Only for step_untested, which is proved: the plan fits the table and the wires.
pub fn written(t: Table, p: &Plan) -> Table
    requires { Fits t (made_of p.now) }
    ensures { result ≡ written_of t (made_of p.now) }
{
    let queue = p.done.queue();
    let sent = p.done.sent();
    let kept = left(t.count, p.taken);
    let count = kept + sent.len();
    let mut u = t;
    take_out(&mut u.wires, t.count, p.taken);
    u.rooms[p.me as usize] = p.done.room();
    u.queue = places_of(queue);
    u.queued = queue.len();
    u.count = count;
    u.wires[kept..count].copy_from_slice(sent);
    u
}
