// Events in bytes, four for each: kind, room, other and mode.
ghost use Rattle.std.specs.Iterator.{YieldsFirst, item_count};
ghost use Rattle.run.specs.Runs.{events_of};

use crate::EVENT_BYTES;
use rules::Event;

// The events that bytes are, one after another. Bytes that are no whole event are left.
#[derive(Drop)]
pub struct Events<'a>(pub &'a [u8]);

impl<'a> Iterator for Events<'a> {
    type Item = Event;

    ghost next_gives = { YieldsFirst (λ s. events_of s.0.now) };

    ghost remaining = { item_count (λ s. events_of s.0.now) };

    #[tactic(auto, using(crate::proofs::Events::events_none, crate::proofs::Events::events_more))]
    fn next(&mut self) -> Option<Event> {
        let (event, rest) = self.0.split_first_chunk::<EVENT_BYTES>()?;
        let [kind, room, other, mode] = *event;
        self.0 = rest;
        Some(Event {
            kind,
            room,
            other,
            mode,
        })
    }
}
