// Pseudo-random numbers.

// The numbers after a first one, without end.
#[derive(Drop)]
pub struct Numbers {
    last: usize,
}

impl Numbers {
    pub fn after(seed: usize) -> Numbers {
        Numbers { last: seed }
    }
}

// Each from the one before by three shifts.
impl Iterator for Numbers {
    type Item = usize;

    fn next(&mut self) -> Option<usize> {
        let a = self.last ^ (self.last << 13);
        let b = a ^ (a >> 7);
        self.last = b ^ (b << 17);
        Some(self.last)
    }
}

// A number below n, where there is one.
pub fn below(n: usize, r: usize) -> usize {
    r.checked_rem(n).unwrap_or(0)
}

// A number as a byte: 255 where it is larger. Vectors has the same line: a crate for it would be longer than both.
pub fn byte(value: usize) -> u8 {
    u8::try_from(value).unwrap_or(u8::MAX)
}
