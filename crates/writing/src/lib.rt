// Writing an answer: the number, the token's room or `*`, the messages on the wires, and each room's held mode.
#![tactic(auto)]

ghost use Rattle.std.specs.Prelude.{◌≡◌, ◌+◌, ◌*◌, ◌≤◌, ◌++◌, ◌∷◌, length, position};
ghost use Rattle.arrayvec.specs.ArrayString.{array_string_len};
ghost use Rattle.base.specs.Letters.{space};
ghost use Rattle.room.specs.Limits.{room_limit};
ghost use Rattle.writing.specs.Answers.{decimal, mode_text, token_room, token_text};
ghost use Rattle.writing.specs.Written.{length_of, written_of};
ghost use Rattle.writing.specs.Words.{word_limit, rooms_limit, held_text, rooms_text};

use arrayvec::ArrayString;
use itoa::Buffer;
use modes::{IR, IW, NONE, R, U, W};
use room::{ROOMS, Room};
use table::Table;

// Bytes that hold any answer.
pub const LINE: usize = 64;

// The largest number that is shown.
const MOST_SHOWN: usize = 999;

// A number at the end of a line, of which MOST_SHOWN is the largest that is shown.
#[tactic(auto, using(crate::proofs::Numbers::number_short, crate::proofs::Numbers::number_text))]
fn push_number(line: &mut ArrayString<LINE>, k: usize)
    requires { array_string_len line.old + word_limit ≤ LINE }
    ensures bytes { line.new.bytes ≡ line.old.bytes ++ decimal k }
    ensures short { array_string_len line.new ≤ array_string_len line.old + word_limit }
{
    let mut buffer = Buffer::new();
    line.push_str(buffer.format(k.min(MOST_SHOWN)));
}

// A mode's letters.
#[tactic(auto, unfolding(crate::specs::Answers::mode_text))]
fn mode_text(m: u8) -> &'static str
    ensures text { result.now ≡ mode_text m }
    ensures short { length result.now ≤ 2 }
{
    match m {
        NONE => "-",
        IR => "IR",
        R => "R",
        U => "U",
        IW => "IW",
        W => "W",
        6..=255 => "?",
    }
}

// The place of the first room that has the token, if one has.
fn token_place(rooms: &[Room]) -> Option<usize>
    ensures { result ≡ position (λ r. r.token) rooms.now }
{
    rooms.iter().position(|room| room.token)
}

// The first room that has the token; a star where none has.
fn push_token(line: &mut ArrayString<LINE>, rooms: &[Room])
    requires { array_string_len line.old + word_limit ≤ LINE }
    ensures bytes { line.new.bytes ≡ line.old.bytes ++ token_text (token_room rooms.now) (length rooms.now) }
    ensures short { array_string_len line.new ≤ array_string_len line.old + word_limit }
{
    match token_place(rooms) {
        Some(place) => push_number(line, place),
        None => line.push_str("*"),
    }
}

// Each room's held mode, after a space.
fn push_modes(line: &mut ArrayString<LINE>, rooms: &[Room])
    requires { array_string_len line.old + 3 * length rooms.now ≤ LINE }
    ensures bytes { line.new.bytes ≡ line.old.bytes ++ held_text rooms.now }
    ensures short { array_string_len line.new ≤ array_string_len line.old + 3 * length rooms.now }
{
    for room in rooms {
        line.push_str(" ");
        line.push_str(mode_text(room.held));
    }
}

// What is shown of a table, each word after a space; nothing where there are no rooms.
fn push_rooms(line: &mut ArrayString<LINE>, rooms: &[Room], count: usize)
    requires fits { array_string_len line.old + rooms_limit ≤ LINE }
    requires few { length rooms.now ≤ room_limit }
    ensures bytes { line.new.bytes ≡ line.old.bytes ++ rooms_text rooms.now count }
    ensures short { array_string_len line.new ≤ array_string_len line.old + rooms_limit }
{
    if rooms.is_empty() {
        return;
    }
    line.push_str(" ");
    push_token(line, rooms);
    line.push_str(" ");
    push_number(line, count);
    push_modes(line, rooms);
}

// The answer line at the start of out, and its length; nothing where out is shorter than a line can be, and then 0, as `length_of` has it.
// The number is any byte, and is shown as it is.
#[tactic(auto, using(crate::proofs::Rooms::shown_rooms), unfolding(crate::specs::Written::written_of, crate::specs::Written::length_of, crate::specs::Answers::line_of))]
pub fn write_line(number: u8, t: Table, out: &mut [u8]) -> usize
    ensures value { result ≡ length_of «number» t out.old }
    ensures out_after { out.new ≡ written_of «number» t out.old }
{
    if out.len() < LINE {
        return 0;
    }
    let mut line = ArrayString::<LINE>::new();
    push_number(&mut line, usize::from(number));
    let rooms = &t.rooms[..usize::from(t.n).min(ROOMS)];
    push_rooms(&mut line, rooms, t.count);
    line.push_str("\n");
    let text = line.as_str().as_bytes();
    out[..text.len()].copy_from_slice(text);
    text.len()
}
