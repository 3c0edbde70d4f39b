// The mount options, read from their text in a single pass: a step to each byte, with a few numbers held between them.
ghost use Rattle.std.specs.Prelude.{◌≡◌, get_or};
ghost use Rattle.options.specs.Options.{comma};
ghost use Rattle.options.specs.Reading.{words, and_piece, counted, started, having, piece_in, piece_ended, byte_taken, part_taken, answered};

use crate::{Asked, MOST_BYTES, Piece, with_piece};
use types::ErrorPolicy;

// The words that a piece may be. A word more is its line in the table, and this number.
const WORDS: usize = 5;

// The most bytes of a word.
const WORD_BYTES: usize = 20;

// A word: its bytes, with commas behind them, and what it asks for.
#[derive(Clone, Copy)]
struct Word {
    text: [u8; WORD_BYTES],
    asks: Piece,
}

// The table of them. A `static` is not laid out again for each byte.
static TABLE: [Word; WORDS] = [
    Word {
        text: *b"errors=remount-ro,,,",
        asks: Piece::Policy(ErrorPolicy::RemountRo),
    },
    Word {
        text: *b"errors=zone-ro,,,,,,",
        asks: Piece::Policy(ErrorPolicy::ZoneRo),
    },
    Word {
        text: *b"errors=zone-offline,",
        asks: Piece::Policy(ErrorPolicy::ZoneOffline),
    },
    Word {
        text: *b"errors=repair,,,,,,,",
        asks: Piece::Policy(ErrorPolicy::Repair),
    },
    Word {
        text: *b"explicit-open,,,,,,,",
        asks: Piece::ExplicitOpen,
    },
];

// The set of all words: a bit for each, the first word's the lowest.
const ALL_WORDS: u32 = (1 << WORDS) - 1;

// What is held of a text between two of its bytes: how many there were, up to one more than a text may have; which words the piece so far could still
// become, and the place of its next byte, which is how many it has, also once it can become no word; and what the pieces before it ask for, or that one
// was bad.
// It stays these numbers: `byte_taken` of the specs is stated over them, and a caller holds them between parts.
#[derive(Clone, Copy)]
pub struct Reading {
    pub bytes: usize,
    pub candidates: u32,
    pub place: usize,
    pub so_far: Option<Asked>,
}

// A count of bytes, which stops once there are more than a text may have.
fn counted(n: usize) -> usize
    ensures { result ≡ counted n }
{
    if n <= MOST_BYTES { n + 1 } else { n }
}

// The byte of a row at a place; behind the row there are commas, too.
fn byte_at(row: &[u8], at: usize) -> u8
    ensures { result ≡ get_or row.now at comma }
{
    row.get(at).copied().unwrap_or(b',')
}

// The words that have this byte at this place.
fn having(b: u8, at: usize) -> u32
    ensures { result ≡ having b at words }
{
    let mut set = 0;
    for w in (0..WORDS).rev() {
        set = u32::from(b == byte_at(&TABLE[w].text, at)) + 2 * set;
    }
    set
}

// What the first word of a set asks for. The last word comes first: each is chosen over those after it.
fn piece_in(set: u32) -> Option<Piece>
    ensures { result ≡ piece_in words set }
{
    let mut asked = None;
    for w in (0..WORDS).rev() {
        if (set >> w) % 2 == 1 {
            asked = Some(TABLE[w].asks);
        }
    }
    asked
}

// A bad piece is not forgotten.
fn and_piece(so_far: Option<Asked>, piece: Option<Piece>) -> Option<Asked>
    ensures { result ≡ and_piece so_far piece }
{
    with_piece(so_far?, piece)
}

// What is asked for with a piece more, which has so many bytes and is each word of this set. An empty one is skipped.
#[tactic(auto, unfolding(crate::specs::Reading::piece_ended))]
fn piece_ended(so_far: Option<Asked>, bytes: usize, set: u32) -> Option<Asked>
    ensures { result ≡ piece_ended so_far bytes set }
{
    if bytes == 0 {
        so_far
    } else {
        and_piece(so_far, piece_in(set))
    }
}

// One byte more. A comma ends the piece: the words that have it here are those that end here.
#[tactic(auto, unfolding(crate::specs::Reading::byte_taken), using(crate::proofs::Sets::all_words_lem))]
fn take_byte(reading: Reading, b: u8) -> Reading
    ensures { result ≡ byte_taken reading b }
{
    let so_far = reading.so_far;
    let bytes = counted(reading.bytes);
    let set = reading.candidates & having(b, reading.place);
    if b == b',' {
        let ended = piece_ended(so_far, reading.place, set);
        Reading {
            bytes,
            candidates: ALL_WORDS,
            place: 0,
            so_far: ended,
        }
    } else {
        let place = counted(reading.place);
        Reading {
            bytes,
            candidates: set,
            place,
            so_far,
        }
    }
}

// Before the first byte of a text.
#[tactic(auto, unfolding(crate::specs::Reading::words))]
pub fn start() -> Reading
    ensures { result ≡ started }
{
    Reading {
        bytes: 0,
        candidates: ALL_WORDS,
        place: 0,
        so_far: Some(Asked {
            policy: ErrorPolicy::RemountRo,
            explicit: false,
        }),
    }
}

// A part of the text, of any length.
pub fn part(reading: Reading, bytes: &[u8]) -> Reading
    ensures { result ≡ part_taken reading bytes.now }
{
    bytes.iter().fold(reading, |taken, &b| take_byte(taken, b))
}

// The end of the text, and what it asks for. It ends the last piece as a comma does.
#[tactic(auto, unfolding(crate::specs::Reading::answered, crate::specs::Reading::part_taken, crate::specs::Reading::byte_taken))]
pub fn end(reading: Reading) -> Option<Asked>
    ensures { result ≡ answered reading }
{
    if reading.bytes <= MOST_BYTES {
        part(reading, b",").so_far
    } else {
        None
    }
}
