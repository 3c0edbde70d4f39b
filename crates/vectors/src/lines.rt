// Lines of text: what stands between two marks, and the numbers of a line.
ghost use Rattle.std.specs.Prelude.{◌<◌, ◌≤◌, IfOk, IfSome};
ghost use Rattle.vectors.specs.declared.lines.TheConstants.{MOST};

use crate::printing;
use std::io;
use std::io::Write;

// The most numbers that a line has.
pub const MOST: usize = 31;

// A number below this has room for one more digit.
const ROOM: u64 = 0x1000_0000_0000_0000;

// What stands before the first byte `mark`, which is all where it isn't there.
fn before(s: &[u8], mark: u8) -> &[u8] {
    match s.iter().position(|b| *b == mark) {
        Some(at) => &s[..at],
        None => s,
    }
}

// What stands behind the first byte `mark`, which is nothing where it isn't there.
fn behind(s: &[u8], mark: u8) -> &[u8] {
    match s.iter().position(|b| *b == mark) {
        Some(at) => &s[at + 1..],
        None => &[],
    }
}

// What stands between the first byte `after` and the next byte `until`. Where one of them isn't there, the end is in its place.
pub fn between(s: &[u8], after: u8, until: u8) -> &[u8] {
    before(behind(s, after), until)
}

// The value of a digit, or none for a byte that may stand between digits. `to_digit` would take capital letters too.
fn digit(out: &mut impl Write, c: u8) -> io::Result<Option<u64>>
    ensures { IfOk result (λ digit. IfSome digit (λ d. d < 16)) }
{
    match c {
        b'0'..=b'9' => Ok(Some(u64::from(c - b'0'))),
        b'a'..=b'f' => Ok(Some(u64::from(c - b'a') + 10)),
        b'x' | b'_' => Ok(None),
        _ => {
            printing::bad_line(out)?;
            Ok(None)
        }
    }
}

// A number with the digits of `word` behind its own: decimal ones and, from an x on, hexadecimal ones. Where it gets too long, its highest digits
// fall off; `parse` would refuse it.
fn grown(out: &mut impl Write, number: u64, word: &[u8]) -> io::Result<u64> {
    let mut number = number;
    let mut base = 10;
    for &c in word {
        if c == b'x' {
            base = 16;
        }
        if let Some(d) = digit(out, c)? {
            number = number % ROOM * base + d;
        }
    }
    Ok(number)
}

// The numbers of a line, which its `count` first places hold: a `Vec` would need a heap, and a longest line is known.
#[derive(Drop)]
pub struct Numbers {
    places: [u64; MOST],
    count: usize,
    ghost fits: { count ≤ MOST },
}

impl Numbers {
    // Reads one number more. What is past the last place is read as more digits of the number there.
    fn read(&mut self, out: &mut impl Write, word: &[u8]) -> io::Result<()> {
        if self.count < MOST {
            self.count += 1;
        } else {
            printing::bad_line(out)?;
        }
        let last = self.count - 1;
        self.places[last] = grown(out, self.places[last], word)?;
        Ok(())
    }

    pub fn as_slice(&self) -> &[u64] {
        &self.places[..self.count]
    }
}

// Reads the numbers between the first word of a line and its bar.
pub fn read_numbers(out: &mut impl Write, line: &[u8]) -> io::Result<Numbers> {
    let mut numbers = Numbers {
        places: [0; MOST],
        count: 0,
    };
    for word in behind(before(line, b'|'), b' ').split(|c| *c == b' ' || *c == b'=') {
        if !word.is_empty() {
            numbers.read(out, word)?;
        }
    }
    Ok(numbers)
}

// The first `N` of some numbers, with 0 for each that isn't there.
pub fn first<const N: usize>(numbers: &[u64]) -> [u64; N] {
    let mut own = [0; N];
    for (to, number) in own.iter_mut().zip(numbers) {
        *to = *number;
    }
    own
}
