// A vector of a zone record: whether it is good input.
use crate::lines;
use std::io;
use std::io::Write;
use zones::Zone;

// A block of 4,096 bytes, in sectors.
pub const UNIT: u64 = 8;

// The numbers are the record's fields, in the order of `Zone`.
fn zone_of(numbers: &[u64]) -> Zone {
    let [start, length, pointer, kind, condition, capacity] = lines::first::<6>(numbers);
    Zone {
        start,
        length,
        pointer,
        kind: (kind % 256) as u8,
        condition: (condition % 256) as u8,
        capacity,
    }
}

pub fn show(out: &mut impl Write, numbers: &[u64]) -> io::Result<()> {
    match zones::record_fault(zone_of(numbers), UNIT) {
        None => write!(out, " good"),
        Some(_) => write!(out, " bad"),
    }
}
