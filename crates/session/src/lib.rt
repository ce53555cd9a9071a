// The session: one line in, one line out. A table goes from line to line, and before the first accepted `n` it is the blank one.
#![tactic(auto)]

ghost use Rattle.std.specs.Prelude.{◌≡◌, not, eqb};
ghost use Rattle.table.specs.Formed.{well_formed};
ghost use Rattle.table.specs.Numbers.{number_of};
ghost use Rattle.table.specs.Tables.{answer, answer_in};
ghost use Rattle.writing.specs.Written.{length_of, written_of};
ghost use Rattle.session.specs.Known.{Known};
ghost use Rattle.session.specs.Turns.{unread, obeyed, answer_to, obeyed_as, answer_as, Leaves};

use reading::{Command, read};
use table::{DONE, Refusal, Table};
use writing::{LINE, write_line};

// The table after a line, and the length of the answer, whose bytes lie in the caller's out. The length is 0 where nothing was done: that
// is what the contract of turn says.
#[derive(Clone, Copy, PartialEq, Eq)]
pub struct Turned {
    pub table: Table,
    pub length: usize,
}

// Why a line of another form is refused.
#[tactic(auto, unfolding(crate::specs::Turns::unread))]
fn other(t: Table) -> Refusal
    ensures { answer (number_of result) t ≡ unread t }
{
    if t.n == 0 {
        Refusal::Table
    } else {
        Refusal::Event
    }
}

// What a line asks for is done, or refused; formed tells whether t is well formed. A refusal leaves the table as it is.
// formed stays beside t, and is no fact of a type: what turn_known tells of a table that is no session's own need not be so.
#[tactic(auto, using(crate::proofs::Fresh::fresh_begun, table::proofs::Laws::fresh_room), unfolding(crate::specs::Turns::obeyed_by))]
fn obey(t: Table, c: Option<Command>, formed: bool) -> Result<Table, Refusal>
    ensures as_told { answer_in t result ≡ obeyed_as formed t c }
    ensures told_rightly { formed ≡ well_formed t → answer_in t result ≡ obeyed t c }
{
    match c {
        None => Err(other(t)),
        Some(Command::Fresh { n }) => table::fresh(n),
        Some(Command::Make { event }) => step::step_untested(t, event, formed),
    }
}

// The turn that ends with a number and a table.
fn shown(number: u8, after: Table, out: &mut [u8]) -> Turned
    ensures value { result ≡ record { table = after; length = length_of «number» after out.old } }
    ensures out_after { out.new ≡ written_of «number» after out.old }
{
    let length = write_line(number, after, out);
    Turned {
        table: after,
        length,
    }
}

// A turn; formed tells whether t is well formed.
#[tactic(auto, unfolding(crate::specs::Turns::turned_of, crate::specs::Turns::answer_as, crate::specs::Turns::answer_to, writing::specs::Written::written_of))]
fn answer(t: Table, formed: bool, line: &[u8], out: &mut [u8]) -> Turned
    ensures as_told { Leaves t (answer_as formed t line.now) out.old result out.new }
    ensures told_rightly { formed ≡ well_formed t → Leaves t (answer_to t line.now) out.old result out.new }
{
    if out.len() < LINE {
        return Turned {
            table: t,
            length: 0,
        };
    }
    match obey(t, read(line), formed) {
        Ok(next) => shown(DONE, next, out),
        Err(refusal) => shown(u8::from(refusal), t, out),
    }
}

// One turn: the table after a line, and the answer at the start of out. Where out is shorter than a line can be nothing is done.
pub fn turn(t: Table, line: &[u8], out: &mut [u8]) -> Turned
    ensures { Leaves t (answer_to t line.now) out.old result out.new }
{
    let formed = formed::well_formed(t);
    answer(t, formed, line, out)
}

// A turn without the test of the table: one with rooms is taken for well formed. On a table that a session makes it is the same turn,
// and the next table is such a one too.
pub fn turn_known(t: Table, line: &[u8], out: &mut [u8]) -> Turned
    ensures as_taken { Leaves t (answer_as (not (eqb t.n 0)) t line.now) out.old result out.new }
    ensures known { Known t → Leaves t (answer_to t line.now) out.old result out.new × Known result.table }
{
    let started = t.n != 0;
    answer(t, started, line, out)
}
