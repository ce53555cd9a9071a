// The rules of document 01 as definitions, all of them in specs/, and the events that they are about.
#![tactic(auto)]

ghost use Rattle.std.specs.Prelude.{◌≡◌};
ghost use Rattle.rules.specs.Events.{code_of, Decodes};

use table::Refusal;

// The numbers of the kinds of events.
pub const ASK: u8 = 0;

pub const UPGRADE: u8 = 1;

pub const HANDBACK: u8 = 2;

pub const DELIVER: u8 = 3;

// The kinds of events.
#[derive(Clone, Copy, PartialEq, Eq)]
pub enum Kind {
    Ask,
    Upgrade,
    HandBack,
    Deliver,
}

// The kind with a number, where there is one.
impl TryFrom<u8> for Kind {
    type Error = Refusal;

    ghost try_from_gives = { Decodes };

    fn try_from(code: u8) -> Result<Self, Refusal> {
        match code {
            ASK => Ok(Kind::Ask),
            UPGRADE => Ok(Kind::Upgrade),
            HANDBACK => Ok(Kind::HandBack),
            DELIVER => Ok(Kind::Deliver),
            4..=255 => Err(Refusal::Event),
        }
    }
}

// The number of a kind.
impl From<Kind> for u8 {
    ghost from_gives = { λ kind given. given ≡ code_of kind };

    fn from(kind: Kind) -> u8 {
        match kind {
            Kind::Ask => ASK,
            Kind::Upgrade => UPGRADE,
            Kind::HandBack => HANDBACK,
            Kind::Deliver => DELIVER,
        }
    }
}

// An event given as numbers: ASK(room, mode), UPGRADE(room), HANDBACK(room), DELIVER(room, other). Numbers, since any of them can come
// in, and each gets its answer.
#[derive(Clone, Copy, PartialEq, Eq)]
pub struct Event {
    pub kind: u8,
    pub room: u8,
    pub other: u8,
    pub mode: u8,
}
