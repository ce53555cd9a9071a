// A command: a word and its values, with single spaces between them.
use crate::words::Word;
use rules::{Event, Kind};
use table::{Message, Wire};

// The values of a command.
const VALUES: usize = 5;
// No value goes on growing from here.
const LARGE: usize = 100000000000;
// After the I of IR or IW. No variant of an enum, since digits can make this number too, and are then read on as an I is.
const INTENT: usize = LARGE + 1;

// What a text asks for: no word where it is not understood, and zero for each value that is not there. The values are the same five for every
// word, and no data of its own: a word whose values are missing is obeyed too.
#[derive(Clone, Copy)]
pub struct Command {
    pub word: Option<Word>,
    pub values: [usize; VALUES],
}

impl Command {
    // The command of a text. Spaces and zero bytes before the word are passed over; the last value has all that is left, spaces too.
    pub fn read(text: &[u8]) -> Command {
        let start = text
            .iter()
            .position(|b| !matches!(*b, 0 | b' '))
            .unwrap_or(text.len());
        let mut parts = text[start..].splitn(VALUES + 1, |b| *b == b' ');
        let word = parts
            .next()
            .and_then(|letters| Word::try_from(letters).ok());
        let mut values = [0; VALUES];
        for (value, part) in values.iter_mut().zip(parts) {
            *value = part.iter().fold(0, |value, b| grown(value, *b));
        }
        Command { word, values }
    }

    // The event that it names. What an event does not use is ignored, and so may be the value that another uses.
    pub fn event(&self) -> Option<Event> {
        let [a, b, c, d, _] = self.values;
        let kind = match self.word? {
            Word::Ask => Kind::Ask,
            Word::Upgrade => Kind::Upgrade,
            Word::HandBack => Kind::HandBack,
            Word::Deliver => Kind::Deliver,
            Word::Event => {
                return Some(Event {
                    kind: byte(a),
                    room: byte(b),
                    other: byte(c),
                    mode: byte(d),
                });
            }
            _ => return None,
        };
        Some(Event {
            kind: kind.into(),
            room: byte(a),
            other: byte(b),
            mode: byte(b),
        })
    }

    // The message that it names.
    fn message(&self) -> Option<Message> {
        let [_, _, c, d, e] = self.values;
        Some(match self.word? {
            Word::Request => Message::Request {
                origin: byte(c),
                mode: byte(d),
                idle: e != 0,
            },
            Word::Grant => Message::Grant {
                mode: byte(c),
                link: link(d),
            },
            Word::Pass => Message::Token {
                mode: byte(c),
                rest: byte(d),
                link: link(e),
            },
            Word::Reduce => Message::Reduce {
                link: link(c),
                mode: byte(d),
            },
            Word::Nothing => Message::Nothing,
            _ => return None,
        })
    }

    // The message that it names, from the room of its first value to that of its second.
    pub fn wire(&self) -> Option<Wire> {
        let [a, b, ..] = self.values;
        let message = self.message()?;
        Some(Wire {
            from: byte(a),
            to: byte(b),
            message,
        })
    }
}

// A value after one more byte: a digit, or a letter of a mode's name.
fn grown(value: usize, b: u8) -> usize {
    match b {
        b'0'..=b'9' if value < LARGE => value * 10 + usize::from(b - b'0'),
        b'I' => INTENT,
        b'R' if value == INTENT => usize::from(modes::IR),
        b'R' => usize::from(modes::R),
        b'U' => usize::from(modes::U),
        b'W' if value == INTENT => usize::from(modes::IW),
        b'W' => usize::from(modes::W),
        _ => value,
    }
}

// A value as a byte: the largest where it is larger.
pub fn byte(value: usize) -> u8 {
    u8::try_from(value).unwrap_or(u8::MAX)
}

// A value as a link number: the last one where it is larger. One function for both types would take their bounds and their largest values
// with it, and be no plainer.
pub fn link(value: usize) -> u32 {
    u32::try_from(value).unwrap_or(room::LAST_LINK)
}
