// The numbers given back: for a step that is made, and for each reason to refuse one, in the order they are tried.
ghost use Rattle.std.specs.Prelude.{◌≡◌};
ghost use Rattle.table.specs.Numbers.{number_of};

// The number of a step that is made.
pub const DONE: u8 = 0;

// Why a step is refused.
#[derive(Clone, Copy, PartialEq, Eq)]
pub enum Refusal {
    // The table is not well formed.
    Table,
    // The event is of an unknown kind.
    Event,
    // A room number n or above; a fresh table of none or too many.
    Room,
    // An ASK for something that is no mode.
    Mode,
    // The room wants a mode.
    Waiting,
    // An ASK of a room that holds.
    Held,
    // A HANDBACK of none, an UPGRADE of anything but U.
    NotHeld,
    // A wire with no message.
    Empty,
    // An ASK with many messages on the wires.
    Busy,
    // An ASK with a counter near its end; a link number above the last.
    Worn,
    // More messages than the table has wires.
    Full,
}

// The number of a refusal.
impl From<Refusal> for u8 {
    ghost from_gives = { λ refusal given. given ≡ number_of refusal };

    fn from(refusal: Refusal) -> u8 {
        match refusal {
            Refusal::Table => 1,
            Refusal::Event => 2,
            Refusal::Room => 3,
            Refusal::Mode => 4,
            Refusal::Waiting => 5,
            Refusal::Held => 6,
            Refusal::NotHeld => 7,
            Refusal::Empty => 8,
            Refusal::Busy => 9,
            Refusal::Worn => 10,
            Refusal::Full => 11,
        }
    }
}
