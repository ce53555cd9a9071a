// Bytes into lines, in whatever pieces they come, and the answers out.
ghost use Rattle.std.specs.Prelude.{◌≡◌, ◌+◌, ◌≤◌, [], ◌∷◌, ◌++◌, length, take, IfSome, IfNone};
ghost use Rattle.arrayvec.specs.ArrayVec.{array_vec_len};
ghost use Rattle.memchr.specs.Find.{Nowhere, Passes, is_byte};
ghost use Rattle.base.specs.Letters.{line_feed};
ghost use Rattle.session.specs.Known.{Known};
ghost use Rattle.punkurel.specs.Kept.{kept_limit};

use arrayvec::ArrayVec;
use memchr::memchr;
use std::{io, mem};
use table::Table;
use writing::LINE;

// A line of at most 64 bytes can be of a known form; what is kept of a longer one is longer than that.
const KEPT: usize = 65;

// The bytes that are read at a time, and those that are written at a time.
pub const BUFFER: usize = 65536;

// The byte that ends a line.
const FEED: u8 = b'\n';

// The first line of some bytes and what comes behind its feed, where they have a feed.
fn first_line(bytes: &[u8]) -> Option<(&[u8], &[u8])>
    ensures whole { IfSome result (λ p. bytes.now ≡ p.0.now ++ line_feed ∷ p.1.now) }
    ensures none_before { IfSome result (λ p. Nowhere (Passes (is_byte line_feed) p.0.now) 0 (length p.0.now)) }
    ensures none { IfNone result (Nowhere (Passes (is_byte line_feed) bytes.now) 0 (length bytes.now)) }
{
    let end = memchr(FEED, bytes)?;
    Some((&bytes[..end], &bytes[end + 1..]))
}

// The table, which is one that the session made; the first bytes of a line of which not all has come yet; the answers that are not
// written yet.
#[derive(Drop)]
pub struct Talk {
    table: Table,
    begun: ArrayVec<u8, KEPT>,
    answers: ArrayVec<u8, BUFFER>,
    ghost known: { ∥ Known table ∥₁ },
}

impl Talk {
    // Before the first line: the table that a refused `n` gives, which has no rooms.
    pub fn start() -> Talk {
        Talk {
            table: table::blank(),
            begun: ArrayVec::new(),
            answers: ArrayVec::new(),
        }
    }

    // The answers are written out. After a write that fails none is tried again, so that nothing is left out in between.
    fn flush(&mut self, rt: &impl Print) -> io::Result<()>
        ensures { self.new.answers.items ≡ [] }
    {
        let written = rt.write_all(self.answers.as_slice());
        self.answers.clear();
        written
    }

    // Makes room for an answer, also where what stood there could not be written.
    fn make_room(&mut self, rt: &impl Print) -> io::Result<()>
        ensures { array_vec_len self.new.answers + LINE ≤ BUFFER }
    {
        if self.answers.remaining_capacity() >= LINE {
            return Ok(());
        }
        self.flush(rt)
    }

    // The line that has begun, with a piece more, as far as it is kept.
    #[tactic(auto, using(crate::proofs::Keeps::kept))]
    fn keep(&mut self, piece: &[u8])
        ensures { self.new.begun.items ≡ take kept_limit (self.old.begun.items ++ piece.now) }
    {
        let n = piece.len().min(self.begun.remaining_capacity());
        self.begun.try_extend_from_slice(&piece[..n]).unwrap();
    }

    // The turn for a line. `session` lays the answer in bytes that it is given, and says how many it took.
    fn turn(&mut self, rt: &impl Print, line: &[u8]) -> io::Result<()> {
        self.make_room(rt)?;
        let mut answer = [0; LINE];
        let turned = session::turn_known(self.table, line, &mut answer);
        self.table = turned.table;
        let n = turned.length.min(LINE);
        self.answers.try_extend_from_slice(&answer[..n]).unwrap();
        Ok(())
    }

    // The turn for a line that is whole as it has begun.
    fn turn_begun(&mut self, rt: &impl Print) -> io::Result<()> {
        let line = mem::take(&mut self.begun);
        self.turn(rt, line.as_slice())
    }

    // The turn for a line whose last piece has come.
    fn turn_ended(&mut self, rt: &impl Print, piece: &[u8]) -> io::Result<()> {
        if self.begun.is_empty() {
            return self.turn(rt, piece);
        }
        self.keep(piece);
        self.turn_begun(rt)
    }

    // The answers of all lines that are whole now, written out; the rest is kept.
    pub fn take(&mut self, rt: &impl Print, chunk: &[u8]) -> io::Result<()> {
        let mut rest = chunk;
        while let Some((line, behind)) = first_line(rest) {
            self.turn_ended(rt, line)?;
            rest = behind;
        }
        self.keep(rest);
        self.flush(rt)
    }

    // The input has ended: the last line is answered, where it lacks its feed.
    pub fn end(&mut self, rt: &impl Print) -> io::Result<()> {
        if self.begun.is_empty() {
            return Ok(());
        }
        self.turn_begun(rt)?;
        self.flush(rt)
    }
}
