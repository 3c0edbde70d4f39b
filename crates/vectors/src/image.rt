// The bytes that vectors lend: an image of a super block and, behind it, of a report.
use crate::printing;
use report::HEADER_BYTES;
use std::io;
use std::io::Write;
use superblock::SUPER_BYTES;
use zones::ZONE_BYTES;

// The longest report that vectors lend has five zones.
pub const REPORT_BYTES: usize = HEADER_BYTES + 5 * ZONE_BYTES;

pub const IMAGE_BYTES: usize = SUPER_BYTES + REPORT_BYTES;

// Stores a word, the lowest byte first.
fn put(out: &mut impl Write, image: &mut [u8; IMAGE_BYTES], at: u64, word: u64) -> io::Result<()> {
    if at <= (IMAGE_BYTES - 8) as u64 {
        let start = at as usize;
        image[start..start + 8].copy_from_slice(&word.to_le_bytes());
        Ok(())
    } else {
        printing::bad_line(out)
    }
}

// Stores words: numbers are the place of one and the word, in turn.
pub fn put_words(
    out: &mut impl Write,
    image: &mut [u8; IMAGE_BYTES],
    numbers: &[u64],
) -> io::Result<()> {
    for pair in numbers.chunks_exact(2) {
        put(out, image, pair[0], pair[1])?;
    }
    Ok(())
}

// The first `count` bytes of some of the image.
pub fn first_bytes<'a>(out: &mut impl Write, bytes: &'a [u8], count: u64) -> io::Result<&'a [u8]> {
    if count <= bytes.len() as u64 {
        return Ok(&bytes[..count as usize]);
    }
    printing::bad_line(out)?;
    Ok(&[])
}
