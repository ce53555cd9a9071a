// A desk: what one room does in a step, with its record, the queue and the messages that it sends.
// The table is written only once the step is known to be made. Outside this crate a desk is read; only proved callers in it change one.
#![tactic(auto, unfolding(rules::specs::Rules::hold, rules::specs::Rules::want, rules::specs::Rules::lend, rules::specs::Rules::pass, rules::specs::Rules::settle, rules::specs::Rules::settle_or_serve, rules::specs::Rules::upgrade_waits, rules::specs::Rules::upgraded, rules::specs::Work::send, rules::specs::Work::join, rules::specs::Work::send_out))]

ghost use Rattle.std.specs.Prelude.{◌≡◌, ◌<◌, length, slice_get};
ghost use Rattle.std.specs.List.{remove};
ghost use Rattle.rules.specs.Rules as rules;
ghost use Rattle.rules.specs.Work as work;
ghost use Rattle.act.specs.Desk.{HasRoom};

use crate::{OUTBOX, PLACES};
use room::{Changed, Lent, Passed, Reduce, Room};
use std::marker::Model;
use table::{Message, NO_QUEUED, Queued, Wire};

// Contracts see a desk as the work that stands on it. Its invariant: there are never more queued and sent than a step needs, and the places
// past those are blank. That there is room for one more (HasRoom) stays a clause of each that sends: as with a vector, it is no fact of
// every one. The lists lie in arrays with counts: a desk is Copy, and the library's vector of fixed capacity is not.
// `worn` is a flag beside the link numbers, as the rules' own: what is sent goes on under the last number, and only the step is refused.
#[derive(Clone, Copy)]
pub struct Desk {
    pub(crate) me: u8,
    pub(crate) room: Room,
    pub(crate) queue: [Queued; PLACES],
    pub(crate) queued: usize,
    pub(crate) out: [Wire; OUTBOX],
    pub(crate) sent: usize,
    pub(crate) worn: bool,
}

impl Model for Desk {
    ghost use Rattle.std.specs.Prelude.{◌≡◌, ◌+◌, ◌≤◌, length, take};
    ghost use Rattle.std.proofs.Common.{arith, sym, length-take-le};
    ghost use Rattle.base.specs.Arrays.{padded};
    ghost use Rattle.table.specs.Tables.{no_queued, no_wire};
    ghost use Rattle.rules.specs.Work.{Work};
    ghost use Rattle.act.specs.Desk.{load_limit, place_limit, out_limit, IsLaid};

    ghost Value = { Work };

    ghost view = { λ d. record { me = d.me; room = d.room; queue = take d.queued d.queue; sent = take d.sent d.out; worn = d.worn } };

    ghost invariant = { λ d. IsLaid d.queue d.queued d.out d.sent };

    ghost inverse = { λ w. record {
      me = w.me;
      room = w.room;
      queue = padded place_limit no_queued w.queue;
      queued = length w.queue;
      out = padded out_limit no_wire w.sent;
      sent = length w.sent;
      worn = w.worn;
    } };

    ghost inverse_ok = { λ d h i. record {
      me = d.me;
      room = d.room;
      queue = sym h.queue-blank i;
      queued = length-take-le d.queued d.queue (omega (arith, h.places, h.fits)) i;
      out = sym h.out-blank i;
      sent = length-take-le d.sent d.out (omega (arith, h.outbox, h.load)) i;
      worn = d.worn;
    } };
}

impl Desk {
    // A message to room y, after those sent already.
    // Only for proved callers in this crate: a place is left for it.
    pub(crate) fn post(&mut self, y: u8, message: Message)
        requires { HasRoom self.old 1 }
        ensures { self.new ≡ work.send self.old y message }
    {
        self.out[self.sent] = Wire {
            from: self.me,
            to: y,
            message,
        };
        self.sent += 1;
    }

    // Room y joins the end of the queue.
    // Only for proved callers in this crate: a place is left for it.
    pub(crate) fn join(&mut self, y: u8, m: u8)
        requires { HasRoom self.old 2 }
        ensures { self.new ≡ work.join self.old y m }
    {
        self.queue[self.queued] = Queued { room: y, mode: m };
        self.queued += 1;
    }

    // The changed record, and what it sends.
    // Only for proved callers in this crate: a place is left for a message.
    pub(crate) fn change(&mut self, c: Changed)
        requires { HasRoom self.old 1 }
        ensures { self.new ≡ work.change self.old c }
    {
        self.room = c.room;
        if let Some(Reduce { to, link, mode }) = c.send {
            self.post(to, Message::Reduce { link, mode });
        }
    }

    // The room holds m, and wants nothing.
    pub(crate) fn hold(&mut self, m: u8)
        ensures { self.new ≡ rules.hold self.old m }
    {
        self.room.held = m;
        self.room.wanted = modes::NONE;
    }

    // The room wants m.
    pub(crate) fn want(&mut self, m: u8)
        ensures { self.new ≡ rules.want self.old m }
    {
        self.room.wanted = m;
    }

    // Lend m to y.
    // Only for proved callers in this crate: a place is left for the GRANT.
    pub(crate) fn lend(&mut self, y: u8, m: u8)
        requires { HasRoom self.old 1 }
        ensures { self.new ≡ rules.lend self.old y m }
    {
        let Lent { room, link, worn } = self.room.lend(y, m);
        self.room = room;
        self.worn |= worn;
        self.post(y, Message::Grant { mode: m, link });
    }

    // Pass the token to y.
    // Only for serve, which is proved: a place is left for the TOKEN.
    fn pass(&mut self, y: u8, m: u8)
        requires { HasRoom self.old 1 }
        ensures { self.new ≡ rules.pass self.old y m }
    {
        let Passed {
            room,
            rest,
            link,
            worn,
        } = self.room.pass(y);
        self.room = room;
        self.worn |= worn;
        self.post(
            y,
            Message::Token {
                mode: m,
                rest,
                link,
            },
        );
    }

    // Without the token: what is owed falls to what is owned.
    // Only for proved callers in this crate: a place is left for the REDUCE.
    pub(crate) fn settle(&mut self)
        requires { HasRoom self.old 1 }
        ensures { self.new ≡ rules.settle self.old }
    {
        self.change(self.room.settle());
    }

    // Whether an upgrade waits.
    fn upgrade_waits(&self) -> bool
        ensures { result ≡ rules.upgrade_waits self.now.room }
    {
        self.room.held == modes::U && self.room.wanted == modes::W
    }

    // A waiting upgrade with no entries becomes a held W.
    fn finish_upgrade(&mut self)
        ensures { self.new ≡ rules.upgraded self.old }
    {
        if self.upgrade_waits() && self.room.has_no_entries() {
            self.hold(modes::W);
        }
    }

    // The head of the queue, if there is one.
    fn head(&self) -> Option<Queued>
        ensures { result ≡ slice_get self.now.queue 0 }
    {
        self.queue[..self.queued].first().copied()
    }

    // The head of the queue leaves it, and the others close up.
    // Only for serve, which is proved: the queue has a head.
    fn take_head(&mut self)
        requires { 0 < length self.old.queue }
        ensures { self.new ≡ work.with_queue self.old (remove self.old.queue 0) }
    {
        let left = self.queued - 1;
        self.queue.copy_within(1..self.queued, 0);
        self.queue[left] = NO_QUEUED;
        self.queued = left;
    }

    // With the token: a waiting upgrade, then the queue, while no upgrade waits and its head agrees with what the room owns.
    pub(crate) fn serve(&mut self)
        ensures { self.new ≡ rules.serve self.old }
    {
        self.finish_upgrade();
        while let Some(q) = self.head() {
            let own = self.room.owned();
            if self.upgrade_waits() || !modes::agree(own, q.mode) {
                return;
            }
            self.take_head();
            if q.room == self.me {
                self.hold(q.mode);
            } else if modes::can_lend(own, q.mode) {
                self.lend(q.room, q.mode);
            } else {
                self.pass(q.room, q.mode);
                return;
            }
        }
    }

    // What a room whose modes have changed does next.
    // Only for proved callers in this crate: a place is left for a message.
    pub(crate) fn settle_or_serve(&mut self)
        requires { HasRoom self.old 1 }
        ensures { self.new ≡ rules.settle_or_serve self.old }
    {
        if self.room.token {
            self.serve();
        } else {
            self.settle();
        }
    }
}
