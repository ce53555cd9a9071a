// A desk is laid out with the whole queue and nothing sent.
ghost use Rattle.std.specs.Prelude.{◌≡◌};
ghost use Rattle.act.specs.Desk.{HasRoom};
ghost use Rattle.act.specs.Start.{start_of};

use crate::desk::Desk;
use crate::{OUTBOX, PLACES, Start};
use table::{NO_QUEUED, NO_WIRE, QUEUE};

impl From<Start> for Desk {
    ghost from_gives = { λ s d. (d ≡ start_of s) × (HasRoom d 2) };

    fn from(s: Start) -> Desk {
        let queued = s.queued.min(QUEUE);
        let mut queue = [NO_QUEUED; PLACES];
        queue[..queued].copy_from_slice(&s.queue[..queued]);
        Desk {
            me: s.me,
            room: s.room,
            queue,
            queued,
            out: [NO_WIRE; OUTBOX],
            sent: 0,
            worn: false,
        }
    }
}
