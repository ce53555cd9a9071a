// The modes and their table: codes, which modes agree, which can lend which, which is stronger.
#![tactic(auto)]

ghost use Rattle.std.specs.Prelude.{◌≡◌};
ghost use Rattle.modes.specs.Codes.{is_code};
ghost use Rattle.modes.specs.Modes.{agrees, can_lend, is_stronger};

// The codes of the modes. Numbers and no enum: a table or an event can hold any of the 256, and each gets its answer, by `match` with ranges.
pub const NONE: u8 = 0;

pub const IR: u8 = 1;

pub const R: u8 = 2;

pub const U: u8 = 3;

pub const IW: u8 = 4;

pub const W: u8 = 5;

// How many codes there are.
pub const CODES: usize = 6;

// Row a, column b: whether the modes a and b agree.
const AGREE: [[bool; CODES]; CODES] = [
    [true, true, true, true, true, true],
    [true, true, true, true, true, false],
    [true, true, true, true, false, false],
    [true, true, true, false, false, false],
    [true, true, false, false, true, false],
    [true, false, false, false, false, false],
];

// Whether a number is a mode's code.
pub fn is_code(m: u8) -> bool
    ensures { result ≡ is_code m }
{
    match m {
        NONE..=W => true,
        6..=255 => false,
    }
}

// Whether two modes agree. A code above 5 agrees with nothing.
pub fn agree(a: u8, b: u8) -> bool
    ensures { result ≡ agrees a b }
{
    match a {
        NONE..=W => {}
        6..=255 => return false,
    }
    match b {
        NONE..=W => {}
        6..=255 => return false,
    }
    AGREE[usize::from(a)][usize::from(b)]
}

// Whether a can lend m. A code above 5 lends nothing and is lent nothing, and none is no loan.
pub fn can_lend(a: u8, m: u8) -> bool
    ensures { result ≡ can_lend a m }
{
    match m {
        NONE => return false,
        IR..=W => {}
        6..=255 => return false,
    }
    if stronger(m, a) {
        return false;
    }
    agree(a, m)
}

// Whether a is stronger than b.
pub fn stronger(a: u8, b: u8) -> bool
    ensures { result ≡ is_stronger a b }
{
    b < a
}
