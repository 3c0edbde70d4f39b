// A mount in pieces for a caller in C: begin, a piece and the end. What is held between them lives in words that the caller keeps. Any words whatever are
// taken: those that hold no such value answer 10.
#![tactic(auto)]

ghost use Rattle.std.specs.Prelude.{◌≡◌, true, ◌≤◌, length};
ghost use Rattle.types.specs.Numbers.{verdict_number, verdict_values, mount_number, mount_values};
ghost use Rattle.answer_words.specs.Answers.{answer_length, answer_words, written};
ghost use Rattle.mount_words.specs.Words.{mount_length, mount_words, account_length, account_words};
ghost use Rattle.pieces_words.specs.Words.{pieces_length, pieces_words};
ghost use Rattle.pieces_call_words.specs.Words.{roomy, begin_given, readable, piece_given, mount_fits, end_given};

use pieces::{EndOutcome, PiecesOutcome};
use pieces_words::PIECES_WORDS;
use types::Refusal;

// The words of a mount in pieces and of an answer are long enough.
#[tactic(auto, unfolding(crate::specs::Words::roomy))]
fn is_roomy(w: usize, a: usize) -> bool
    ensures value { result ≡ roomy w a }
    ensures pieces_length_le_w { result ≡ true → (pieces_length ≤ w) × (answer_length ≤ a) }
{
    PIECES_WORDS <= w && answer_words::ANSWER_WORDS <= a
}

// The words can hold a mount in pieces, and the answer has room.
#[tactic(auto, unfolding(crate::specs::Words::readable))]
fn is_readable(w: &[u64], room: usize) -> bool
    ensures value { result ≡ readable w.now room }
    ensures pieces_length_in_bounds { result ≡ true → (pieces_length ≤ length w.now) × (answer_length ≤ room) }
{
    pieces_words::is_pieces(w) && answer_words::ANSWER_WORDS <= room
}

// The words of a mount value and of its account are long enough.
#[tactic(auto, unfolding(crate::specs::Words::mount_fits))]
fn mount_fits(m: usize, account: usize) -> bool
    ensures value { result ≡ mount_fits m account }
    ensures mount_length_le_m { result ≡ true → (mount_length ≤ m) × (account_length ≤ account) }
{
    mount_words::MOUNT_WORDS <= m && mount_words::ACCOUNT_WORDS <= account
}

#[tactic(auto, unfolding(answer_words::specs::Answers::answer_words))]
fn tell_pieces(w: &mut [u64], a: &mut [u64], o: PiecesOutcome) -> u64
    requires { (pieces_length ≤ length w.old) × (answer_length ≤ length a.old) }
    ensures { (verdict_number o.answer ≡ result) × (written w.old (pieces_words o.pieces) ≡ w.new) × (written a.old (answer_words (verdict_values o.answer)) ≡ a.new) }
{
    pieces_words::put_pieces(w, o.pieces);
    answer_words::tell(a, o.answer, pieces_words::verdict_values(o.answer))
}

#[tactic(auto, unfolding(answer_words::specs::Answers::answer_words))]
fn tell_ended(
    w: &mut [u64],
    m: &mut [u64],
    account: &mut [u64],
    a: &mut [u64],
    o: EndOutcome,
) -> u64
    requires { (pieces_length ≤ length w.old) × (mount_length ≤ length m.old) × (account_length ≤ length account.old) × (answer_length ≤ length a.old) }
    ensures { (mount_number o.answer ≡ result) × (written w.old (pieces_words o.pieces) ≡ w.new) × (written m.old (mount_words o.mount) ≡ m.new) × (written account.old (account_words o.mount.account) ≡ account.new) × (written a.old (answer_words (mount_values o.answer)) ≡ a.new) }
{
    pieces_words::put_pieces(w, o.pieces);
    mount_words::put_all(m, account, o.mount);
    answer_words::tell(a, o.answer, answer_words::mount_values(o.answer))
}

// Begins: fills the words of the mount in pieces.
#[tactic(auto, unfolding(crate::specs::Words::begin_given))]
pub fn begin(
    block: u64,
    superblock: &[u8],
    options: &[u8],
    open_limit: u32,
    active_limit: u32,
    w: &mut [u64],
    a: &mut [u64],
) -> u64
    ensures { begin_given block superblock.now options.now open_limit active_limit w.old a.old ≡ record { number = result; pieces = w.new; answer = a.new } }
{
    if !is_roomy(w.len(), a.len()) {
        return types::answers::refusal_number(Refusal::Impossible);
    }
    tell_pieces(
        w,
        a,
        pieces::begin(block, superblock, options, open_limit, active_limit),
    )
}

// Takes a piece: the rows of the files that are finished in it are stored.
#[tactic(auto, unfolding(crate::specs::Words::piece_given))]
pub fn piece(w: &mut [u64], bytes: &[u8], cnv: &mut [u64], seq: &mut [u64], a: &mut [u64]) -> u64
    ensures { piece_given w.old bytes.now cnv.old seq.old a.old ≡ record { number = result; pieces = w.new; cnv = cnv.new; seq = seq.new; answer = a.new } }
{
    if !is_readable(&w[..], a.len()) {
        return types::answers::refusal_number(Refusal::Impossible);
    }
    let p = pieces_words::pieces_from(&w[..]);
    if !pieces::is_possible(p) {
        return types::answers::refusal_number(Refusal::Impossible);
    }
    tell_pieces(w, a, pieces::piece(p, bytes, cnv, seq))
}

// Ends: fills the words of the mount and of its account.
#[tactic(auto, unfolding(crate::specs::Words::end_given))]
pub fn end(w: &mut [u64], m: &mut [u64], account: &mut [u64], a: &mut [u64]) -> u64
    ensures { end_given w.old m.old account.old a.old ≡ record { number = result; pieces = w.new; mount = m.new; account = account.new; answer = a.new } }
{
    if !(mount_fits(m.len(), account.len()) && is_readable(&w[..], a.len())) {
        return types::answers::refusal_number(Refusal::Impossible);
    }
    let p = pieces_words::pieces_from(&w[..]);
    if !pieces::is_possible(p) {
        return types::answers::refusal_number(Refusal::Impossible);
    }
    tell_ended(w, m, account, a, pieces::end(p))
}
