// Bytes of text: two texts compared, and text put into lent bytes from a place on. Each function that puts answers the place after what
// it put.
#![tactic(auto)]

ghost use Rattle.std.specs.Prelude.{◌≡◌, [], ◌∷◌, ◌+◌, ◌≤◌, ◌<◌, ◌^◌, length};
ghost use Rattle.text.specs.Text.{same, decimal, field};
ghost use Rattle.text.specs.Facts.{field_bytes, Put};

// The digits that a number has at most.
const MOST_DIGITS: usize = 20;

#[tactic(auto, using(crate::proofs::Same::same_is))]
pub fn same_text(a: &[u8], b: &[u8]) -> bool
    ensures { result ≡ same a.now b.now }
{
    a == b
}

// One byte.
pub fn put_byte(out: &mut [u8], at: usize, b: u8) -> usize
    requires { at < length out.old }
    ensures { Put out.old out.new at result (b ∷ []) }
{
    out[at] = b;
    at + 1
}

// The decimal digits of a number that has at most `places` of them.
// It stays a recursion: the highest digit comes first, and no index is counted.
fn put_digits(out: &mut [u8], at: usize, n: u64, places: usize) -> usize
    requires { (at + places ≤ length out.old) × (n < 10 ^ places) × (0 < places) }
    ensures put { Put out.old out.new at result (decimal n) }
    ensures upper_bound { result ≤ at + places }
{
    if n < 10 {
        put_byte(out, at, b'0' + n as u8)
    } else {
        let next = put_digits(out, at, n / 10, places - 1);
        put_byte(out, next, b'0' + (n % 10) as u8)
    }
}

// A space and a number.
pub fn put_field(out: &mut [u8], at: usize, n: u64) -> usize
    requires { at + field_bytes ≤ length out.old }
    ensures put { Put out.old out.new at result (field n) }
    ensures upper_bound { result ≤ at + field_bytes }
{
    let next = put_byte(out, at, b' ');
    put_digits(out, next, n, MOST_DIGITS)
}
