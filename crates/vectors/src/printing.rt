// What vectors write: numbers, each after a space, and refusals; and where they write it to.
use std::fmt::Display;
use std::io;
use std::io::{Stdout, Write};
use types::{Refusal, Values};

// The longest piece that is written at once: a space and a number.
const PIECE_BYTES: usize = 21;

// Where vectors write to, and the first write that failed. What comes behind it is still tried: so it says of each that it was written.
#[derive(Drop)]
pub struct Output {
    pub stdout: Stdout,
    pub failed: io::Result<()>,
}

impl Write for Output {
    fn write(&mut self, bytes: &[u8]) -> io::Result<usize> {
        let written = self.stdout.write_all(bytes);
        if self.failed.is_ok() {
            self.failed = written;
        }
        Ok(bytes.len())
    }

    fn flush(&mut self) -> io::Result<()> {
        Ok(())
    }
}

// Writes a piece by one write: `write!` makes one of each of its parts.
pub fn piece<D: Display + Drop>(out: &mut impl Write, value: D) -> io::Result<()> {
    let mut room = [0u8; PIECE_BYTES];
    let mut rest = &mut room[..];
    write!(rest, "{value}")?;
    let length = PIECE_BYTES.saturating_sub(rest.len());
    out.write_all(&room[..length])
}

pub fn number(out: &mut impl Write, n: u64) -> io::Result<()> {
    piece(out, format_args!(" {n}"))
}

pub fn numbers(out: &mut impl Write, words: &[u64]) -> io::Result<()> {
    for &word in words {
        number(out, word)?;
    }
    Ok(())
}

// For a line that isn't written as `stdin` says: no stored line has these words, so the comparison of what is written fails.
pub fn bad_line(out: &mut impl Write) -> io::Result<()> {
    write!(out, " bad line")
}

fn values(out: &mut impl Write, v: Values) -> io::Result<()> {
    match v {
        Values::Nothing => Ok(()),
        Values::One(x) => number(out, x),
        Values::Two(x, y) => numbers(out, &[x, y]),
    }
}

// A refusal's number, and its values.
pub fn refusal(out: &mut impl Write, x: Refusal) -> io::Result<()> {
    let code = types::answers::refusal_code(x);
    number(out, code.number)?;
    values(out, code.values)
}
