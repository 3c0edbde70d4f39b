// A tape that is read in pieces: what is played of the bytes that are there, and what is kept of them for the next read.
#![tactic(auto)]

ghost use Rattle.std.specs.Prelude.{◌≡◌, false, ◌≤◌, length, take, drop};
ghost use Rattle.std.proofs.lemmas.List.Edits.{sets};
ghost use Rattle.tape_lines.specs.Facts.{line_room};
ghost use Rattle.tape_turns.specs.Facts.{rest_of};
ghost use Rattle.tape_pieces.specs.Pieces.{part_of, piece_of, longest_opening, first_part, is_over};
ghost use Rattle.tape_pieces.specs.Facts.{front_turned, Keeps};

use tape_turns::Turned;

// What playing a part of a tape left: what its last record did, and how many bytes at the front of the buffer aren't played yet.
#[derive(Clone, Copy)]
pub struct Kept {
    pub turned: Turned,
    pub left: usize,
}

// Moves what stands from `from` on among the first `have` bytes to the front. Answers how many bytes that are.
fn keep_rest(b: &mut [u8], from: usize, have: usize) -> usize
    requires { have ≤ length b.old }
    ensures value { result ≡ length (drop from (take have b.old)) }
    ensures b_after { b.new ≡ sets b.old 0 (drop from (take have b.old)) }
{
    if have <= from {
        return 0;
    }
    b.copy_within(from..have, 0);
    have - from
}

// The rest of a tape whose next record is at the front.
fn at_front(t: Turned) -> Turned
    ensures { result ≡ front_turned t }
{
    Turned { next: 0, ..t }
}

// Plays the records that are ready among the first `have` bytes, and moves what is left to the front.
fn play_part(
    b: &mut [u8],
    have: usize,
    ended: bool,
    t: Turned,
    cnv: &mut [u64],
    seq: &mut [u64],
    out: &mut [u8],
) -> Kept
    requires { have ≤ length b.old }
    ensures { Keeps (part_of ended (take have b.old) t.to (length out.old) (rest_of t cnv.old seq.old)) b.old b.new out.old out.new t.to result cnv.new seq.new }
{
    let played = tape::play_block(&b[..have], ended, t, cnv, seq, out);
    Kept {
        left: keep_rest(b, played.next, have),
        turned: at_front(played),
    }
}

// Opens a tape by the first `have` bytes, which are the last or hold its first four records whole, and plays on among them.
pub fn first_part(
    b: &mut [u8],
    have: usize,
    ended: bool,
    cnv: &mut [u64],
    seq: &mut [u64],
    out: &mut [u8],
) -> Kept
    requires { (have ≤ length b.old) × (line_room ≤ length out.old) × (ended ≡ false → longest_opening ≤ have) }
    ensures { Keeps (first_part (length out.old) (piece_of (take have b.old) ended) cnv.old seq.old) b.old b.new out.old out.new 0 result cnv.new seq.new }
{
    let opened = tape_turns::open_tape(&b[..have], cnv, seq, out, 0);
    play_part(b, have, ended, opened, cnv, seq, out)
}

// Plays on among the first `have` bytes, with all lines so far written.
pub fn next_part(
    b: &mut [u8],
    have: usize,
    ended: bool,
    t: Turned,
    cnv: &mut [u64],
    seq: &mut [u64],
    out: &mut [u8],
) -> Kept
    requires { have ≤ length b.old }
    ensures { Keeps (part_of ended (take have b.old) 0 (length out.old) (rest_of t cnv.old seq.old)) b.old b.new out.old out.new 0 result cnv.new seq.new }
{
    play_part(b, have, ended, tape::from_start(t), cnv, seq, out)
}

// The player stops: the tape did, or its last byte is played.
pub fn is_over(more: bool, ended: bool, left: usize) -> bool
    ensures { result ≡ is_over more ended left }
{
    !more || (ended && left == 0)
}
