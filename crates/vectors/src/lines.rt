// The lines of the input. A line is a label, a colon, and commands with semicolons between them; one that starts with # is a remark,
// and one that starts with its colon prints nothing.
use crate::command::Command;
use crate::desk::Desk;
use memchr::memchr;

// A line's label, and the number that its last command gave back.
fn show(rt: &impl Print, label: &[u8], number: u8) {
    let _ = rt.write_all(label);
    let _ = println!(rt; ": {number}");
}

// One line.
fn take(rt: &impl Print, desk: &mut Desk, line: &[u8]) {
    if line.starts_with(b"#") {
        return;
    }
    let Some(colon) = memchr(b':', line) else {
        return;
    };
    for text in line[colon + 1..].split(|b| *b == b';') {
        desk.obey(rt, &Command::read(text));
    }
    if colon > 0 {
        show(rt, &line[..colon], desk.number);
    }
}

// All lines.
pub fn take_all(rt: &impl Print, text: &[u8]) {
    let mut desk = Desk::bare();
    for line in text.split(|b| *b == b'\n') {
        take(rt, &mut desk, line);
    }
}
