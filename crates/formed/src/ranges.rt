// "n, codes, counts and room numbers in range"
// Modes are numbers, as the specification has them: a `match` with ranges catches every code outside.
ghost use Rattle.std.specs.Prelude.{◌≡◌};
ghost use Rattle.table.specs.Formed.{is_mode, is_granted, sizes_fit};

use modes::{IR, IW, NONE, R, U, W};
use room::MOST_ROOMS;
use table::{QUEUE, WIRES};

// Whether a number is the code of a mode that is not none.
pub fn is_mode(m: u8) -> bool
    ensures { result ≡ is_mode m }
{
    match m {
        NONE => false,
        IR..=W => true,
        6..=255 => false,
    }
}

// Whether a GRANT can be of this mode.
#[tactic(auto, unfolding(table::specs::Formed::is_granted))]
pub fn is_granted(m: u8) -> bool
    ensures { result ≡ is_granted m }
{
    match m {
        NONE | U => false,
        IR | R | IW => true,
        W..=255 => false,
    }
}

// Whether there can be so many rooms, places of the queue in use and messages.
#[tactic(auto, unfolding(table::specs::Formed::sizes_fit))]
pub fn sizes_fit(n: u8, queued: usize, count: usize) -> bool
    ensures { result ≡ sizes_fit n queued count }
{
    match n {
        1..=MOST_ROOMS => queued <= QUEUE && count <= WIRES,
        _ => false,
    }
}
