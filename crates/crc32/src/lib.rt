// The super block's checksum: the reflected CRC-32 with polynomial 0xEDB88320, start all ones and no final inversion, eight bytes at
// a time where there are many.
#![tactic(auto)]

mod tables; // eight tables of the 256 bytes' remainders

ghost use Rattle.std.specs.Prelude.{◌≡◌, take, drop};
ghost use Rattle.wire.specs.Le.{little};
ghost use Rattle.crc32.specs.Crc.{Ruled, AllRuled, crc_byte, crc_from, crc32, superblock_crc};

use tables::{EIGHT, FIRST};

// The register at the start.
const START: u32 = 0xffff_ffff;

// Where a super block's checksum field stands, and where it ends.
const FIELD_AT: usize = 4;

const FIELD_END: usize = 8;

// From so many bytes on they go eight at a time. For few, laying out eight tables takes longer than it saves (`docs/DECISIONS.md`).
const MANY: usize = 128;

// The first table alone, with its rule. Whoever needs it lends it on, so that it is not laid out again for each byte.
fn remainders() -> [u32; 256]
    ensures { Ruled result }
{
    FIRST
}

// All eight tables, with theirs.
fn all_remainders() -> [[u32; 256]; 8]
    ensures { AllRuled result }
{
    EIGHT
}

// The register `crc` after one byte more.
fn next(table: &[u32; 256], crc: u32, byte: u8) -> u32
    requires { Ruled table.now }
    ensures { result ≡ crc_byte crc byte }
{
    let mixed = crc ^ (byte as u32);
    let low = (mixed % 256) as usize;
    (crc / 256) ^ table[low]
}

// The register `crc` after the bytes of `b`, one at a time.
#[tactic(auto, using(crate::proofs::Fold::crc_none, crate::proofs::Fold::crc_next))]
fn carry(table: &[u32; 256], crc: u32, b: &[u8]) -> u32
    requires { Ruled table.now }
    ensures { result ≡ crc_from crc b.now }
{
    let mut sum = crc;
    for &byte in b {
        sum = next(table, sum, byte);
    }
    sum
}

// The register `crc` after the eight bytes of `word`, the lowest first. They are xored in all at once, and one that has t bytes after it is looked up
// in table t. The last byte goes first, as the upper four don't wait for `crc`.
fn next_eight(tables: &[[u32; 256]; 8], crc: u32, word: u64) -> u32
    requires { AllRuled tables.now }
    ensures { result ≡ crc_from crc (little 8 word) }
{
    let mixed = ((crc as u64) ^ word).to_le_bytes();
    let mut sum = 0;
    for (table, &byte) in tables.iter().zip(mixed.iter().rev()) {
        sum ^= table[byte as usize];
    }
    sum
}

// The register `crc` after the bytes of `b`: eight at a time, and those after the last eight one at a time.
#[tactic(auto, using(crate::proofs::Fold::crc_none, crate::proofs::Fold::rest_at))]
fn carry_eights(tables: &[[u32; 256]; 8], crc: u32, b: &[u8]) -> u32
    requires { AllRuled tables.now }
    ensures { result ≡ crc_from crc b.now }
{
    let mut sum = crc;
    let (eights, rest) = b.as_chunks::<8>();
    for eight in eights {
        sum = next_eight(tables, sum, wire::u64_at(eight, 0));
    }
    carry(&tables[0], sum, rest)
}

// The register `crc` after the bytes of `b`, of which there are many. It is a function of its own, so that few bytes don't reserve room for eight tables.
fn carry_many(crc: u32, b: &[u8]) -> u32
    ensures { result ≡ crc_from crc b.now }
{
    let tables = all_remainders();
    carry_eights(&tables, crc, b)
}

// The first `n` bytes, or all where there are fewer.
fn first(b: &[u8], n: usize) -> &[u8]
    ensures { result.now ≡ take n b.now }
{
    &b[..b.len().min(n)]
}

// What comes after the first `n` bytes: nothing where there are fewer.
fn after(b: &[u8], n: usize) -> &[u8]
    ensures { result.now ≡ drop n b.now }
{
    &b[b.len().min(n)..]
}

// The checksum of `b`. The call for many takes `&b[..]`: for `b` itself the compiler stores its place before the test, so that few bytes wait for it.
pub fn checksum(b: &[u8]) -> u32
    ensures { result ≡ crc32 b.now }
{
    if b.len() < MANY {
        let table = remainders();
        carry(&table, START, b)
    } else {
        carry_many(START, &b[..])
    }
}

// The checksum of `b` with its checksum field taken as zero. A super block is many bytes.
pub fn superblock_checksum(b: &[u8]) -> u32
    ensures { result ≡ superblock_crc b.now }
{
    let table = remainders();
    let before = carry(&table, START, first(b, FIELD_AT));
    let field = carry(&table, before, b"\0\0\0\0");
    carry_many(field, after(b, FIELD_END))
}
