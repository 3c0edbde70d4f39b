// A vector of a super block: 0 and what its fields give, or the refusal.
use crate::image::IMAGE_BYTES;
use crate::{image, lines, printing};
use std::io;
use std::io::Write;
use superblock::SuperBlock;

fn print_uuid(out: &mut impl Write, bytes: [u8; 16]) -> io::Result<()> {
    write!(out, " ")?;
    for b in bytes {
        printing::piece(out, format_args!("{b:02x}"))?;
    }
    Ok(())
}

fn print_fields(out: &mut impl Write, s: SuperBlock) -> io::Result<()> {
    printing::numbers(
        out,
        &[
            0,
            s.aggregate as u64,
            s.owner as u64,
            s.group as u64,
            s.mode as u64,
        ],
    )?;
    let bytes = s.uuid;
    print_uuid(out, bytes)
}

fn show_super(out: &mut impl Write, b: &[u8]) -> io::Result<()> {
    match superblock::read_superblock(b) {
        Ok(fields) => print_fields(out, fields),
        Err(x) => printing::refusal(out, x),
    }
}

// The number is how many bytes are lent.
pub fn show(out: &mut impl Write, numbers: &[u64], image: &[u8; IMAGE_BYTES]) -> io::Result<()> {
    let [bytes] = lines::first::<1>(numbers);
    let superblock = image::first_bytes(out, image, bytes)?;
    show_super(out, superblock)
}
