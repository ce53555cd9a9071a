// What the methods of a record are made of: an entry, a lender, the stronger of two modes, the next link number. Private: only they use it.
ghost use Rattle.std.specs.Prelude.{◌≡◌};
ghost use Rattle.room.specs.Record.{entry_of, lender_in};
ghost use Rattle.room.specs.Owned as owning;
ghost use Rattle.room.specs.Rules.{next_link};

use crate::{Entry, NO_ENTRY};

// An entry of this mode; mode none has link number zero.
#[tactic(auto, unfolding(crate::specs::Record::entry_of))]
pub fn entry_of(mode: u8, link: u32) -> Entry
    ensures { result ≡ entry_of mode link }
{
    match mode {
        modes::NONE => NO_ENTRY,
        modes::IR..=255 => Entry { mode, link },
    }
}

// The lender that a number names. No room has number 255: it names nobody.
#[tactic(auto, unfolding(crate::specs::Record::lender_in))]
pub fn lender_in(a: u8) -> Option<u8>
    ensures { result ≡ lender_in a }
{
    match a {
        u8::MAX => None,
        _ => Some(a),
    }
}

// The stronger of two modes. Not `max`: how modes are ordered is only for `modes` to know.
#[tactic(auto, unfolding(crate::specs::Owned::larger))]
pub fn larger(a: u8, b: u8) -> u8
    ensures { result ≡ owning.larger a b }
{
    if modes::stronger(b, a) { b } else { a }
}

// The counter goes up by 1, as far as there are link numbers.
#[tactic(auto, unfolding(crate::specs::Rules::next_link))]
pub fn next_link(counter: u32) -> u32
    ensures { result ≡ next_link counter }
{
    counter.saturating_add(1)
}
