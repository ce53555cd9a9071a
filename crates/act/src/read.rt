// What a desk says at the end of a step.
#![tactic(auto)]

ghost use Rattle.std.specs.Prelude.{◌≡◌};

use crate::desk::Desk;
use room::Room;
use table::{Queued, Wire};

impl Desk {
    // The room's record.
    pub fn room(&self) -> Room
        ensures { result ≡ self.now.room }
    {
        self.room
    }

    // The queue, as far as it is in use.
    pub fn queue(&self) -> &[Queued]
        ensures { result.now ≡ self.now.queue }
    {
        &self.queue[..self.queued]
    }

    // The messages that were sent, in the order of sending.
    pub fn sent(&self) -> &[Wire]
        ensures { result.now ≡ self.now.sent }
    {
        &self.out[..self.sent]
    }

    // Whether a link number above the last was needed.
    pub fn worn(&self) -> bool
        ensures { result ≡ self.now.worn }
    {
        self.worn
    }
}
