// A tape: a block of its records played into lent bytes, and a whole tape in memory.
#![tactic(auto)]

ghost use Rattle.std.specs.Prelude.{◌≡◌, true, ◌+◌, ◌^◌, ◌≤◌, ◌<◌, length};
ghost use Rattle.std.proofs.lemmas.List.Edits.{sets};
ghost use Rattle.text.specs.Facts.{Fills};
ghost use Rattle.tape_lines.specs.Facts.{line_room};
ghost use Rattle.tape_turns.specs.Facts.{rest_of};
ghost use Rattle.tape.specs.Tape.{text_from, text_with, tape_text, played_to, played_into};
ghost use Rattle.tape.specs.Blocks.{is_told, has_room, is_ready, block_of};
ghost use Rattle.tape.specs.Facts.{Plays, Copies};

use table::ROW_WORDS;
use tape_lines::LINE_ROOM;
use tape_records::{FAILED_BYTES, TAPE_FILES};
use tape_turns::Turned;

// The words of a table with room for as many files of a kind as a tape's report gives.
pub const TABLE_WORDS: usize = ROW_WORDS * TAPE_FILES;

// No record after the first four is longer.
const LONGEST_RECORD: usize = FAILED_BYTES;

// What playing a tape into lent bytes answers: whether its text fits, and how many of the bytes are the text's.
// Not a Result: `played_to` says in both cases how many bytes are the text's.
#[derive(Clone, Copy)]
pub struct Played {
    pub whole: bool,
    pub length: usize,
}

// The record at `next` stands whole among the bytes that are there, or they are the last.
fn is_told(ended: bool, have: usize, next: usize) -> bool
    ensures { result ≡ is_told ended have next }
{
    ended || (LONGEST_RECORD <= have && next <= have - LONGEST_RECORD)
}

// There is room for a line at `to`.
fn has_room(to: usize, room: usize) -> bool
    ensures { result ≡ has_room to room }
{
    LINE_ROOM <= room && to <= room - LINE_ROOM
}

// The next record can be played.
fn is_ready(more: bool, next: usize, ended: bool, have: usize, to: usize, room: usize) -> bool
    ensures { result ≡ is_ready more next ended have to room }
{
    more && next < have && is_told(ended, have, next) && has_room(to, room)
}

// Plays the records that are ready: puts their lines at `t.to`, and hands back what the last of them left.
pub fn play_block(
    b: &[u8],
    ended: bool,
    t: Turned,
    cnv: &mut [u64],
    seq: &mut [u64],
    out: &mut [u8],
) -> Turned
    ensures plays { Plays (block_of ended b.now t.to (length out.old) (rest_of t cnv.old seq.old)) out.old out.new t.to result cnv.new seq.new }
    ensures to_in_bounds { t.to ≤ length out.old → result.to ≤ length out.old }
{
    let mut t = t;
    while is_ready(t.more, t.next, ended, b.len(), t.to, out.len()) {
        t = tape_turns::take_turn(b, t.next, t.mount, cnv, seq, out, t.to);
    }
    t
}

// The rest of a tape whose lines so far are written.
pub fn from_start(t: Turned) -> Turned
    ensures { result ≡ record { to = 0; more = t.more; next = t.next; mount = t.mount } }
{
    Turned { to: 0, ..t }
}

// The lines at the start of `lines`, with as much of them at `to` as there is room for.
fn copy_lines(t: Turned, lines: &[u8], out: &mut [u8], to: usize) -> Turned
    requires { (t.to ≤ length lines.now) × (to + t.to < 2 ^ 64) }
    ensures { Copies t lines.now out.old out.new to result }
{
    Turned {
        to: tape_lines::copy_line(out, to, lines, t.to),
        ..t
    }
}

// A block of all records that there is room for in one line, with as much of its text at `t.to` as there is room for.
fn block_into(b: &[u8], t: Turned, cnv: &mut [u64], seq: &mut [u64], out: &mut [u8]) -> Turned
    requires { t.to ≤ length out.old }
    ensures { Plays (block_of true b.now 0 line_room (rest_of t cnv.old seq.old)) out.old out.new t.to result cnv.new seq.new }
{
    let to = t.to;
    let mut lines = [0u8; LINE_ROOM];
    let played = play_block(b, true, from_start(t), cnv, seq, &mut lines);
    copy_lines(played, &lines, out, to)
}

// Plays what is left of a tape, until it stops or there is no room. Answers the place after the last line, also where that lies past the end.
fn play_rest(b: &[u8], t: Turned, cnv: &mut [u64], seq: &mut [u64], out: &mut [u8]) -> usize
    ensures { Fills out.old out.new t.to result (text_from (length b.now) b.now (rest_of t cnv.old seq.old)) }
{
    let mut t = t;
    while t.more & (t.next < b.len()) & (t.to <= out.len()) {
        t = block_into(b, t, cnv, seq, out);
    }
    t.to
}

// A text that ends at `end` was put into `room` bytes.
fn played_to(end: usize, room: usize) -> Played
    ensures { result ≡ played_to end room }
{
    Played {
        whole: end <= room,
        length: end.min(room),
    }
}

// Plays a tape with two tables.
fn play_with(b: &[u8], cnv: &mut [u64], seq: &mut [u64], out: &mut [u8]) -> Played
    ensures value { result ≡ played_into (length out.old) (text_with b.now cnv.old seq.old) }
    ensures out_after { out.new ≡ sets out.old 0 (text_with b.now cnv.old seq.old) }
{
    let mut line = [0u8; LINE_ROOM];
    let t = tape_turns::open_tape(b, cnv, seq, &mut line, 0);
    let t = copy_lines(t, &line, out, 0);
    let end = play_rest(b, t, cnv, seq, out);
    played_to(end, out.len())
}

// Plays a whole tape: puts its text at the start of `out`, as much of it as there is room for.
#[tactic(auto, unfolding(crate::specs::Tape::tape_text))]
pub fn play(b: &[u8], out: &mut [u8]) -> Played
    ensures value { result ≡ played_into (length out.old) (tape_text b.now) }
    ensures out_after { out.new ≡ sets out.old 0 (tape_text b.now) }
{
    let mut cnv = [0u64; TABLE_WORDS];
    let mut seq = [0u64; TABLE_WORDS];
    play_with(b, &mut cnv, &mut seq, out)
}
