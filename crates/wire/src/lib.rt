// Little-endian numbers at an offset of lent bytes: the library reads each width from an array of its bytes. And the other way round: numbers, bytes
// and zeros put into lent bytes from a place on.
#![tactic(auto)]

ghost use Rattle.std.specs.Prelude.{◌≡◌, ◌+◌, ◌%◌, ◌≤◌, ◌<◌, length, get_or, take, drop, replicate};
ghost use Rattle.std.proofs.lemmas.List.Edits.{sets};
ghost use Rattle.wire.specs.Le.{le, little};

// The byte at `at`.
pub fn u8_at(b: &[u8], at: usize) -> u8
    requires { at < length b.now }
    ensures { result ≡ get_or b.now at 0 }
{
    b[at]
}

// The `N` bytes at `at`.
fn bytes_at<const N: usize>(b: &[u8], at: usize) -> [u8; N]
    requires { at + N ≤ length b.now }
    ensures { result ≡ take N (drop at b.now) }
{
    let Some(bytes) = b[at..at + N].as_array() else {
        unreachable!();
    };
    *bytes
}

// The number of the two bytes at `at`.
#[tactic(auto, using(crate::proofs::Laws::two_bytes, crate::proofs::Laws::two_halves))]
pub fn u16_at(b: &[u8], at: usize) -> u16
    requires { at + 2 ≤ length b.now }
    ensures { result ≡ le 2 b.now at }
{
    u16::from_le_bytes(bytes_at(b, at))
}

// The number of the four bytes at `at`.
#[tactic(auto, using(crate::proofs::Laws::four_bytes, crate::proofs::Laws::four_halves))]
pub fn u32_at(b: &[u8], at: usize) -> u32
    requires { at + 4 ≤ length b.now }
    ensures { result ≡ le 4 b.now at }
{
    u32::from_le_bytes(bytes_at(b, at))
}

// The number of the eight bytes at `at`.
#[tactic(auto, using(crate::proofs::Laws::eight_bytes, crate::proofs::Laws::eight_halves))]
pub fn u64_at(b: &[u8], at: usize) -> u64
    requires { at + 8 ≤ length b.now }
    ensures { result ≡ le 8 b.now at }
{
    u64::from_le_bytes(bytes_at(b, at))
}

// Puts `n` bytes of a number at `at`, the lowest first.
pub fn put_number(b: &mut [u8], at: usize, n: usize, x: u64)
    requires { at + n ≤ length b.old }
    ensures { b.new ≡ sets b.old at (little n x) }
{
    let mut rest = x;
    for byte in &mut b[at..at + n] {
        *byte = (rest % 256) as u8;
        rest /= 256;
    }
}

// Puts the bytes of `from` at `at`.
pub fn put_bytes(b: &mut [u8], at: usize, from: &[u8])
    requires { at + length from.now ≤ length b.old }
    ensures { b.new ≡ sets b.old at from.now }
{
    b[at..at + from.len()].copy_from_slice(from);
}

// Puts `n` zeros at `at`.
pub fn put_zeros(b: &mut [u8], at: usize, n: usize)
    requires { at + n ≤ length b.old }
    ensures { b.new ≡ sets b.old at (replicate n 0) }
{
    b[at..at + n].fill(0);
}
