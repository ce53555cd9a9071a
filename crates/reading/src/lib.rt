// Reading a line: `n 3`, `a 1 R`, `u 1`, `h 1`, `d 0 1`, and every other byte string.
#![tactic(auto)]

ghost use Rattle.std.specs.Prelude.{◌≡◌, ◌<◌, [], IfSome, IfNone, eqb, position};
ghost use Rattle.base.specs.Letters.{space};
ghost use Rattle.rules.specs.Events.{code_of};
ghost use Rattle.reading.specs.Lines.{digit_of, number_of, mode_of, before, behind, fresh_command, own_command, ask_command, deliver_command, command_of};

use rules::{ASK, DELIVER, Event, Kind};

// What a line asks for: a fresh table of n rooms, or an event.
#[derive(Clone, Copy, PartialEq, Eq)]
pub enum Command {
    Fresh { n: u8 },
    Make { event: Event },
}

// The value of a digit. By hand: a char's `to_digit` gives a u32, which would have to be narrowed again, and `parse` takes a sign too.
#[tactic(auto, unfolding(crate::specs::Lines::digit_of))]
fn digit(b: u8) -> Option<u8>
    ensures value { result ≡ digit_of b }
    ensures small { IfSome result (λ d. d < 10) }
{
    match b {
        b'0'..=b'9' => Some(b - b'0'),
        _ => None,
    }
}

// A number of one or two digits.
#[tactic(auto, unfolding(crate::specs::Lines::number_of))]
fn number_of(text: &[u8]) -> Option<u8>
    ensures { result ≡ number_of text.now }
{
    match text {
        [ones] => digit(*ones),
        [tens, ones] => {
            let tens = digit(*tens)?;
            let ones = digit(*ones)?;
            Some(10 * tens + ones)
        }
        _ => None,
    }
}

// A mode by its letters.
#[tactic(auto, unfolding(crate::specs::Lines::mode_of, crate::specs::Lines::short_mode, crate::specs::Lines::intent_of))]
fn mode_of(text: &[u8]) -> Option<u8>
    ensures { result ≡ mode_of text.now }
{
    match text {
        b"IR" => Some(modes::IR),
        b"R" => Some(modes::R),
        b"U" => Some(modes::U),
        b"IW" => Some(modes::IW),
        b"W" => Some(modes::W),
        _ => None,
    }
}

// The place of the first space, if there is one.
fn space_in(text: &[u8]) -> Option<usize>
    ensures { result ≡ position (λ b. eqb b space) text.now }
{
    text.iter().position(|b| *b == b' ')
}

// The text before the first space, and the text behind it.
fn parts(text: &[u8]) -> Option<(&[u8], &[u8])>
    ensures before { IfSome result (λ p. p.0.now ≡ before text.now) }
    ensures behind { IfSome result (λ p. p.1.now ≡ behind text.now) }
    ensures joined { IfNone result (behind text.now ≡ []) }
{
    let at = space_in(text)?;
    Some((&text[..at], &text[at + 1..]))
}

// What follows `n `: a number.
#[tactic(auto, unfolding(crate::specs::Lines::fresh_command))]
fn fresh(rest: &[u8]) -> Option<Command>
    ensures { result ≡ fresh_command (number_of rest.now) }
{
    let n = number_of(rest)?;
    Some(Command::Fresh { n })
}

// What follows `u ` and `h `: a number.
#[tactic(auto, unfolding(crate::specs::Lines::own_command))]
fn own(kind: Kind, rest: &[u8]) -> Option<Command>
    ensures { result ≡ own_command (code_of kind) (number_of rest.now) }
{
    let room = number_of(rest)?;
    let event = Event {
        kind: u8::from(kind),
        room,
        other: 0,
        mode: modes::NONE,
    };
    Some(Command::Make { event })
}

// What follows `a `: a number, a space and a mode.
#[tactic(auto, using(crate::proofs::Spaces::no_ask), unfolding(crate::specs::Lines::ask_command, crate::specs::Lines::mode_of))]
fn ask(rest: &[u8]) -> Option<Command>
    ensures { result ≡ ask_command (number_of (before rest.now)) (mode_of (behind rest.now)) }
{
    let (room, mode) = parts(rest)?;
    let room = number_of(room)?;
    let mode = mode_of(mode)?;
    let event = Event {
        kind: ASK,
        room,
        other: 0,
        mode,
    };
    Some(Command::Make { event })
}

// What follows `d `: a number, a space and a number.
#[tactic(auto, using(crate::proofs::Spaces::no_delivery), unfolding(crate::specs::Lines::deliver_command, crate::specs::Lines::number_of))]
fn deliver(rest: &[u8]) -> Option<Command>
    ensures { result ≡ deliver_command (number_of (before rest.now)) (number_of (behind rest.now)) }
{
    let (from, to) = parts(rest)?;
    let room = number_of(from)?;
    let other = number_of(to)?;
    let event = Event {
        kind: DELIVER,
        room,
        other,
        mode: modes::NONE,
    };
    Some(Command::Make { event })
}

// What a line asks for, if it is of a known form.
#[tactic(auto, unfolding(crate::specs::Lines::command_of, crate::specs::Lines::order))]
pub fn read(line: &[u8]) -> Option<Command>
    ensures { result ≡ command_of line.now }
{
    match line {
        [b'n', b' ', rest @ ..] => fresh(rest),
        [b'u', b' ', rest @ ..] => own(Kind::Upgrade, rest),
        [b'h', b' ', rest @ ..] => own(Kind::HandBack, rest),
        [b'a', b' ', rest @ ..] => ask(rest),
        [b'd', b' ', rest @ ..] => deliver(rest),
        _ => None,
    }
}
