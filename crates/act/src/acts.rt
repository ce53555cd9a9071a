// What each event does at a desk that is laid out for it.
#![tactic(auto, unfolding(rules::specs::Rules::ask, rules::specs::Rules::ask_with, rules::specs::Rules::ask_without, rules::specs::Rules::is_empty, rules::specs::Rules::upgrade, rules::specs::Rules::hand_back, rules::specs::Rules::take_request, rules::specs::Rules::receive, rules::specs::Rules::want, rules::specs::Rules::hold, rules::specs::Rules::lend, rules::specs::Work::send))]

ghost use Rattle.std.specs.Prelude.{◌≡◌};
ghost use Rattle.rules.specs.Rules as rules;
ghost use Rattle.act.specs.Start.{start_of};
ghost use Rattle.act.specs.Acts.{lends_on};

use crate::Start;
use crate::desk::Desk;
use table::Message;

// The room has the token: it holds m, or waits at the end of the queue.
fn ask_with(s: Start, m: u8) -> Desk
    ensures { result ≡ rules.ask_with (start_of s) m }
{
    let mut desk = Desk::from(s);
    if desk.queued == 0 && modes::agree(m, desk.room.owned()) {
        desk.hold(m);
    } else {
        desk.want(m);
        desk.join(s.me, m);
    }
    desk
}

// The room has not: it takes m under what it owns, or sends a REQUEST.
fn ask_without(s: Start, m: u8) -> Desk
    ensures { result ≡ rules.ask_without (start_of s) m }
{
    let mut desk = Desk::from(s);
    let own = s.room.owned();
    if modes::can_lend(own, m) {
        desk.hold(m);
    } else {
        desk.want(m);
        desk.post(
            s.room.toward,
            Message::Request {
                origin: s.me,
                mode: m,
                idle: own == modes::NONE,
            },
        );
    }
    desk
}

// ASK: the room asks for m.
pub fn ask(s: Start, m: u8) -> Desk
    ensures { result ≡ rules.ask (start_of s) m }
{
    if s.room.token {
        ask_with(s, m)
    } else {
        ask_without(s, m)
    }
}

// UPGRADE: the room's U becomes a W, or waits to.
pub fn upgrade(s: Start) -> Desk
    ensures { result ≡ rules.upgrade (start_of s) }
{
    let mut desk = Desk::from(s);
    if s.room.has_no_entries() {
        desk.hold(modes::W);
    } else {
        desk.want(modes::W);
    }
    desk
}

// HANDBACK: the room holds nothing any more.
pub fn hand_back(s: Start) -> Desk
    ensures { result ≡ rules.hand_back (start_of s) }
{
    let mut desk = Desk::from(s);
    desk.hold(modes::NONE);
    desk.settle_or_serve();
    desk
}

// Whether a room without the token lends to the origin of a REQUEST.
fn lends_on(s: Start, o: u8, m: u8, idle: bool) -> bool
    ensures { result ≡ lends_on (start_of s) o m idle }
{
    idle && o != s.me && modes::can_lend(s.room.owned(), m)
}

// A REQUEST arrives.
fn take_request(s: Start, o: u8, m: u8, idle: bool) -> Desk
    ensures { result ≡ rules.take_request (start_of s) o m idle }
{
    let mut desk = Desk::from(s);
    if s.room.token {
        desk.join(o, m);
        desk.serve();
    } else if lends_on(s, o, m, idle) {
        desk.lend(o, m);
        desk.settle();
    } else {
        desk.post(
            s.room.toward,
            Message::Request {
                origin: o,
                mode: m,
                idle,
            },
        );
    }
    desk
}

// DELIVER: the room takes a message from room a.
pub fn receive(s: Start, a: u8, message: Message) -> Desk
    ensures { result ≡ rules.receive (start_of s) a message }
{
    let mut desk = Desk::from(s);
    match message {
        Message::Nothing => {}
        Message::Request { origin, mode, idle } => return take_request(s, origin, mode, idle),
        Message::Grant { mode, link } => desk.change(s.room.take_grant(a, mode, link)),
        Message::Token { mode, rest, link } => {
            desk.change(s.room.take_token(s.me, a, mode, rest, link));
            desk.serve();
        }
        Message::Reduce { link, mode } => {
            desk.room = s.room.take_reduce(a, link, mode);
            desk.settle_or_serve();
        }
    }
    desk
}
