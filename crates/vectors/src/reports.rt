// A vector of a report, for a block of 4,096 bytes: 0, or the refusal.
use crate::image::IMAGE_BYTES;
use crate::records::UNIT;
use crate::{image, lines, printing};
use std::io;
use std::io::Write;
use superblock::SUPER_BYTES;

fn show_report(out: &mut impl Write, report: &[u8]) -> io::Result<()> {
    match report::check_report(report, UNIT, false) {
        Ok(_) => printing::number(out, 0),
        Err(x) => printing::refusal(out, x),
    }
}

// The number is how many bytes are lent.
pub fn show(out: &mut impl Write, numbers: &[u64], image: &[u8; IMAGE_BYTES]) -> io::Result<()> {
    let [bytes] = lines::first::<1>(numbers);
    let report = image::first_bytes(out, &image[SUPER_BYTES..], bytes)?;
    show_report(out, report)
}
