// The words of the commands.

// What a command is for.
#[derive(Clone, Copy, PartialEq, Eq)]
pub enum Word {
    Fresh,
    Ask,
    Upgrade,
    HandBack,
    Deliver,
    Event,
    Take,
    Keep,
    At,
    Request,
    Grant,
    Pass,
    Reduce,
    Nothing,
    Held,
    Wanted,
    Token,
    Toward,
    Lender,
    Credit,
    Link,
    Counter,
    Entry,
    Fill,
    Join,
    Place,
    Rooms,
    Queued,
    Count,
}

// A word that is none of these.
#[derive(Drop)]
pub struct Unknown;

impl TryFrom<&[u8]> for Word {
    type Error = Unknown;

    fn try_from(letters: &[u8]) -> Result<Word, Unknown> {
        Ok(match letters {
            b"n" | b"fresh" => Word::Fresh,
            b"a" => Word::Ask,
            b"u" => Word::Upgrade,
            b"h" => Word::HandBack,
            b"d" => Word::Deliver,
            b"event" => Word::Event,
            b"take" => Word::Take,
            b"keep" => Word::Keep,
            b"at" => Word::At,
            b"request" => Word::Request,
            b"grant" => Word::Grant,
            b"pass" => Word::Pass,
            b"reduce" => Word::Reduce,
            b"nothing" => Word::Nothing,
            b"held" => Word::Held,
            b"wanted" => Word::Wanted,
            b"token" => Word::Token,
            b"toward" => Word::Toward,
            b"lender" => Word::Lender,
            b"credit" => Word::Credit,
            b"link" => Word::Link,
            b"counter" => Word::Counter,
            b"entry" => Word::Entry,
            b"fill" => Word::Fill,
            b"join" => Word::Join,
            b"place" => Word::Place,
            b"rooms" => Word::Rooms,
            b"queued" => Word::Queued,
            b"count" => Word::Count,
            _ => return Err(Unknown),
        })
    }
}
