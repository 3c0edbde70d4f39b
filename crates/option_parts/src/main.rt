// Prints what each text of options on standard input asks for, a line to a text: 0, the policy's number and 1 where explicit-open is asked for, or
// else the refusal. A text is handed over in parts: their number, and then each part, its length and its bytes. Both numbers have two bytes, the low
// one first. The gate runs it beside the reference program on the same texts.
#![tactic(auto)]

use options::Asked;
use options::reading::Reading;
use std::io;
use std::io::{ErrorKind, Read};
use types::Refusal;

// Room for every length that two bytes can say.
const ROOM: usize = 65536;

fn next_number<R: Read>(input: &mut R) -> io::Result<u16> {
    let mut bytes = [0u8; 2];
    input.read_exact(&mut bytes)?;
    Ok(u16::from_le_bytes(bytes))
}

// Reads one part into `space` and answers its bytes, or `UnexpectedEof` where the input ends before that.
// `checksums` reads an input alike: a library for these few lines would be longer than they are.
fn next_part<'a, R: Read>(input: &mut R, space: &'a mut [u8; ROOM]) -> io::Result<&'a [u8]> {
    let part = &mut space[..usize::from(next_number(input)?)];
    input.read_exact(part)?;
    Ok(part)
}

// Reads one text, part after part, by way of `space`.
fn next_text<R: Read>(input: &mut R, space: &mut [u8; ROOM]) -> io::Result<Reading> {
    let mut reading = options::reading::start();
    for _ in 0..next_number(input)? {
        reading = options::reading::part(reading, next_part(input, space)?);
    }
    Ok(reading)
}

// Each number is a write of its own: where one fails, those before it stand there.
fn print_options(rt: &impl Print, asked: Option<Asked>) -> io::Result<()> {
    match asked {
        Some(asked) => {
            print!(rt; "0 ")?;
            print!(rt; "{}", u64::from(asked.policy))?;
            print!(rt; " ")?;
            print!(rt; "{}", asked.explicit as u64)?;
        }
        None => {
            let code = types::answers::refusal_code(Refusal::BadOptions);
            print!(rt; "{}", code.number)?;
        }
    }
    println!(rt)
}

// A proved loop has to end, and nothing says that the input does: the loop takes as many turns as no run uses up.
fn print_all<R: Read>(rt: &impl Print, input: &mut R, space: &mut [u8; ROOM]) -> io::Result<()> {
    for _ in 0..u64::MAX {
        match next_text(input, space) {
            Ok(reading) => print_options(rt, options::reading::end(reading))?,
            Err(e) if e.kind() == ErrorKind::UnexpectedEof => break,
            Err(e) => return Err(e),
        }
    }
    Ok(())
}

fn main(rt: HostRuntime) -> io::Result<()> {
    print_all(&rt, &mut rt.stdin(), &mut [0u8; ROOM])
}
