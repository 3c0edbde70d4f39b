// Runs the vectors of standard input, a line each, and writes what each answers. The file `stdin` says how a vector is written.
#![tactic(auto)]

ghost use Rattle.std.specs.Prelude.{◌≤◌, length, IfOk};

mod image;
mod lines;
mod mounts;
mod option_texts;
mod printing;
mod records;
mod reports;
mod superblocks;

use image::IMAGE_BYTES;
use lines::MOST;
use printing::Output;
use std::io;
use std::io::{Read, Write};

// The bytes of the text that are read.
const TEXT_BYTES: usize = 65536;

// A vector's line, the numbers there, and the image that it begins with.
#[derive(Clone, Copy)]
struct Vector<'a> {
    line: &'a [u8],
    numbers: &'a [u64],
    image: &'a [u8; IMAGE_BYTES],
}

impl<'a> Vector<'a> {
    // Runs it on a copy of the image, which the words behind its first `own` numbers change, and writes its line: its label, and what it answers.
    fn run<W: Write, F>(self, out: &mut W, own: usize, answer: F) -> io::Result<()>
    where
        F: FnOnce(&mut W, &[u8; IMAGE_BYTES]) -> io::Result<()>,
        requires { F.IsAlwaysCallable answer }
    {
        let mut lent = *self.image;
        let words = &self.numbers[own.min(self.numbers.len())..];
        image::put_words(out, &mut lent, words)?;
        out.write_all(lines::between(self.line, b'|', b'['))?;
        answer(out, &lent)?;
        writeln!(out)
    }
}

// The first letter of its line says what a vector runs. One that has no words says that all numbers are its own.
fn run_vector<W: Write>(
    out: &mut W,
    letter: u8,
    line: &[u8],
    numbers: &[u64],
    image: &[u8; IMAGE_BYTES],
) -> io::Result<()> {
    let vector = Vector {
        line,
        numbers,
        image,
    };
    let text = lines::between(line, b'[', b']');
    match letter {
        b's' => vector.run(out, 1, |out, lent| superblocks::show(out, numbers, lent)),
        b'r' => vector.run(out, 1, |out, lent| reports::show(out, numbers, lent)),
        b'm' => vector.run(out, 6, |out, lent| mounts::show(out, numbers, text, lent)),
        b'o' => vector.run(out, MOST, |out, _| option_texts::show(out, text)),
        b'z' => vector.run(out, MOST, |out, _| records::show(out, numbers)),
        _ => vector.run(out, MOST, |out, _| printing::bad_line(out)),
    }
}

// Empty lines and comments hold nothing to run.
fn run_line<W: Write>(out: &mut W, line: &[u8], image: &mut [u8; IMAGE_BYTES]) -> io::Result<()> {
    let Some(&letter) = line.first() else {
        return Ok(());
    };
    if letter == b'#' {
        return Ok(());
    }
    let read = lines::read_numbers(out, line)?;
    let numbers = read.as_slice();
    match letter {
        b'i' => {
            *image = [0u8; IMAGE_BYTES];
            Ok(())
        }
        b'w' => image::put_words(out, image, numbers),
        _ => run_vector(out, letter, line, numbers, image),
    }
}

fn run_lines<W: Write>(out: &mut W, text: &[u8]) -> io::Result<()> {
    let mut image = [0u8; IMAGE_BYTES];
    for line in text.split(|b| *b == b'\n') {
        run_line(out, line, &mut image)?;
    }
    Ok(())
}

// Reads until `bytes` are full or the input has ended, and answers those that came: `read_exact` doesn't say how many, and `read_to_end` needs a heap.
fn read_full<'a, R: Read>(input: &mut R, bytes: &'a mut [u8]) -> io::Result<&'a [u8]>
    ensures { IfOk result (λ came. length came.now ≤ length bytes.old) }
{
    let mut count = 0;
    while count < bytes.len() {
        let n = input.read(&mut bytes[count..])?;
        if n == 0 {
            break;
        }
        count += n;
    }
    Ok(&bytes[..count])
}

fn main(rt: HostRuntime) -> io::Result<()> {
    let mut out = Output {
        stdout: rt.stdout(),
        failed: Ok(()),
    };
    let mut text = [0u8; TEXT_BYTES];
    let text = read_full(&mut rt.stdin(), &mut text)?;
    run_lines(&mut out, text)?;
    out.failed
}
