// The test of a block of lines.
ghost use Rattle.std.specs.Prelude.{◌≡◌, ◌+◌, ◌*◌, ◌^◌, ◌<◌, ◌≤◌, length, SomeIff};
ghost use Rattle.hex_text.specs.Blocks.{each_is_line, are_lines};

use crate::line::is_line;

// Where lines stand in a text, one after the other: the place of the first, the bytes of each with its line end, and how many.
#[derive(Clone, Copy)]
pub struct Lines {
    pub start: usize,
    pub each: usize,
    pub count: usize,
}

impl Lines {
    // Where the last one ends, unless that is no place at all.
    fn end(self) -> Option<usize>
        ensures { SomeIff result (self.start + self.each * self.count < 2 ^ 64) (self.start + self.each * self.count) }
    {
        self.start.checked_add(self.each.checked_mul(self.count)?)
    }

    // Whether each part is a line. No early exit, and no chunks_exact: a caller may ask for lines of no bytes.
    fn each_is_line(self, s: &[u8]) -> bool
        requires { self.start + self.each * self.count ≤ length s.now }
        ensures { result ≡ each_is_line s.now self.start self.each self.count }
    {
        let mut good = true;
        for k in 0..self.count {
            let at = self.start + self.each * k;
            good &= is_line(&s[at..at + self.each]);
        }
        good
    }

    // Whether they stand there in a text.
    pub fn stand_in(self, s: &[u8]) -> bool
        ensures { result ≡ are_lines s.now self.start self.each self.count }
    {
        let Some(end) = self.end() else {
            return false;
        };
        end <= s.len() && self.each_is_line(s)
    }
}
