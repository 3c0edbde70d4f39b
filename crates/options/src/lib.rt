// The mount options, read from their text piece by piece.
#![tactic(auto)]

pub mod reading; // the text in a single pass, in parts cut anywhere

ghost use Rattle.std.specs.Prelude.{◌≡◌, [], ◌∷◌};
ghost use Rattle.options.specs.Options.{piece_of, with_piece, after_pieces, options_of};

use text::same_text;
use types::ErrorPolicy;

// A longer text is refused.
const MOST_BYTES: usize = 255;

// What a text of options asks for: the error policy, and the option `explicit-open`.
#[derive(Clone, Copy)]
pub struct Asked {
    pub policy: ErrorPolicy,
    pub explicit: bool,
}

// What one piece of it asks for.
#[derive(Clone, Copy)]
enum Piece {
    Policy(ErrorPolicy),
    ExplicitOpen,
}

// What a piece that isn't empty asks for, or that it is no option.
// A `match` on the texts was tried: it tests them byte by byte, with a goal for each, and its proof didn't close.
#[tactic(auto, unfolding(crate::specs::Options::piece_of))]
fn piece_of(piece: &[u8]) -> Option<Piece>
    ensures { result ≡ piece_of piece.now }
{
    if same_text(piece, b"errors=remount-ro") {
        Some(Piece::Policy(ErrorPolicy::RemountRo))
    } else if same_text(piece, b"errors=zone-ro") {
        Some(Piece::Policy(ErrorPolicy::ZoneRo))
    } else if same_text(piece, b"errors=zone-offline") {
        Some(Piece::Policy(ErrorPolicy::ZoneOffline))
    } else if same_text(piece, b"errors=repair") {
        Some(Piece::Policy(ErrorPolicy::Repair))
    } else if same_text(piece, b"explicit-open") {
        Some(Piece::ExplicitOpen)
    } else {
        None
    }
}

// What is asked for, with one piece more.
fn with_piece(asked: Asked, piece: Option<Piece>) -> Option<Asked>
    ensures { result ≡ with_piece asked piece }
{
    match piece? {
        Piece::Policy(policy) => Some(Asked { policy, ..asked }),
        Piece::ExplicitOpen => Some(Asked {
            explicit: true,
            ..asked
        }),
    }
}

// The options after one more piece.
#[tactic(auto, using(crate::proofs::Laws::empty_piece, crate::proofs::Laws::full_piece))]
fn after_piece(so_far: Option<Asked>, piece: &[u8]) -> Option<Asked>
    ensures { result ≡ after_pieces so_far (piece.now ∷ []) }
{
    if piece.is_empty() {
        return so_far;
    }
    with_piece(so_far?, piece_of(piece))
}

// What a text of options asks for, or that it is no such text. Its pieces stand between its commas.
#[tactic(auto, unfolding(crate::specs::Options::options_of))]
pub fn read_options(text: &[u8]) -> Option<Asked>
    ensures { result ≡ options_of text.now }
{
    if text.len() > MOST_BYTES {
        return None;
    }
    let by_default = Asked {
        policy: ErrorPolicy::RemountRo,
        explicit: false,
    };
    text.split(|&b| b == b',').fold(Some(by_default), |so_far, piece| after_piece(so_far, piece))
}
