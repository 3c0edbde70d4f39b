// Prints the checksum of each input on standard input, eight hexadecimal digits to a line. An input is its length in two bytes, the low
// one first, and then its bytes. The gate runs it beside the reference program on the same inputs.
#![tactic(auto)]

use std::io;
use std::io::{ErrorKind, Read};

// Room for every length that two bytes can say.
const ROOM: usize = 65536;

// Reads one input into `space` and answers its bytes, or `UnexpectedEof` where the input ends before that.
// `option_parts` reads a part alike: a library for these few lines would be longer than they are.
fn next_input<'a, R: Read>(input: &mut R, space: &'a mut [u8; ROOM]) -> io::Result<&'a [u8]> {
    let mut length = [0u8; 2];
    input.read_exact(&mut length)?;
    let bytes = &mut space[..usize::from(u16::from_le_bytes(length))];
    input.read_exact(bytes)?;
    Ok(bytes)
}

// A proved loop has to end, and nothing says that the input does: the loop takes as many turns as no run uses up.
fn sum_all<R: Read>(rt: &impl Print, input: &mut R, space: &mut [u8; ROOM]) -> io::Result<()> {
    for _ in 0..u64::MAX {
        match next_input(input, space) {
            Ok(bytes) => println!(rt; "{:08x}", crc32::checksum(bytes))?,
            Err(e) if e.kind() == ErrorKind::UnexpectedEof => break,
            Err(e) => return Err(e),
        }
    }
    Ok(())
}

fn main(rt: HostRuntime) -> io::Result<()> {
    sum_all(&rt, &mut rt.stdin(), &mut [0u8; ROOM])
}
