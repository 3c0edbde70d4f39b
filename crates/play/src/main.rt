// Plays a tape, from the file that its argument names or from standard input, and writes the lines that it prints.
// What is read is played by `tape_pieces`, whose functions say exactly what they do; here is only what reads and writes.
#![tactic(auto)]

ghost use Rattle.std.specs.Prelude.{◌≡◌, true, false, ◌≤◌, ◌<◌, length, take, IfErr, IfOk};
ghost use Rattle.tape_pieces.specs.Facts.{Continues, holding_of};

use std::env::{Env, FillError};
use std::fmt::Display;
use std::io::{Read, Write};
use std::rt::Files;
use std::{fs, io, str};
use tape::TABLE_WORDS;
use tape_pieces::Kept;

// The bytes of a tape that are read at once, with room for its first four records whole; and those of the lines that are written at once.
const READ_BYTES: usize = 131072;

const WRITE_BYTES: usize = 65536;

// The bytes that a name may have.
const NAME_BYTES: usize = 4096;

// What a tape is played in: the bytes that are read, tables for as many files as there can be, and the lines that are written.
#[derive(Drop)]
struct Memory {
    buffer: [u8; READ_BYTES],
    cnv: [u64; TABLE_WORDS],
    seq: [u64; TABLE_WORDS],
    lines: [u8; WRITE_BYTES],
}

// How far the input was read: the bytes that are there, and whether it has ended. Both are kept: where it has ended, the buffer may be full or not.
#[derive(Clone, Copy)]
pub struct Input {
    pub have: usize,
    pub ended: bool,
}

// How far a tape was played: what its last part left, and whether the input has ended.
#[derive(Clone, Copy)]
pub struct Playing {
    pub kept: Kept,
    pub ended: bool,
}

// Why a tape was played no further.
#[derive(Clone, Copy)]
pub enum Failure {
    Reading(io::Error),
    Writing(io::Error),
}

// Reads once, behind the first `have` bytes, which stay as they are.
fn read_once<R: Read>(reader: &mut R, b: &mut [u8], have: usize) -> io::Result<Input>
    requires { have ≤ length b.old }
    ensures have_le_have { IfOk result (λ input. (have ≤ input.have) × (input.have ≤ length b.old) × (input.ended ≡ false → have < input.have)) }
    ensures b_unchanged { take have b.new ≡ take have b.old }
{
    let n = reader.read(&mut b[have..])?;
    Ok(Input {
        have: have + n,
        ended: n == 0,
    })
}

// Reads until `b` is full or the input has ended, and nothing where it had; the first `have` bytes stay as they are. A read that isn't the last
// brings a byte at least, so that this ends.
fn fill<R: Read>(reader: &mut R, b: &mut [u8], have: usize, ended: bool) -> io::Result<Input>
    requires { have ≤ length b.old }
    ensures have_le_have { IfOk result (λ input. (have ≤ input.have) × (input.have ≤ length b.old) × (input.ended ≡ false → input.have ≡ length b.old) × (ended ≡ true → (input.have ≡ have) × (input.ended ≡ true))) }
    ensures b_unchanged { take have b.new ≡ take have b.old }
{
    let mut input = Input { have, ended };
    while !input.ended && input.have < b.len() {
        input = read_once(reader, b, input.have)?;
    }
    Ok(input)
}

// Reads behind what is left, and plays on: whatever the piece is that was read, what is written and kept is what `tape_pieces` defines for it. Where
// it can't be read, all stays but what is behind.
fn read_on<R: Read>(reader: &mut R, p: Playing, m: &mut Memory) -> io::Result<Playing>
    requires { p.kept.left ≤ READ_BYTES }
    ensures left_in_bounds { IfOk result (λ next. next.kept.left ≤ READ_BYTES) }
    ensures to_in_bounds { IfOk result (λ next. next.kept.turned.to ≤ WRITE_BYTES) }
    ensures stays { IfErr result (λ e. (take p.kept.left m.new.buffer ≡ take p.kept.left m.old.buffer) × (m.new.cnv ≡ m.old.cnv) × (m.new.seq ≡ m.old.seq) × (m.new.lines ≡ m.old.lines)) }
    ensures continues { IfOk result (λ next. Continues (length m.old.lines) (holding_of m.old.buffer p.ended p.kept m.old.cnv m.old.seq) next.ended m.new.buffer m.old.lines m.new.lines next.kept m.new.cnv m.new.seq) }
{
    let input = fill(reader, &mut m.buffer, p.kept.left, p.ended)?;
    let kept = tape_pieces::next_part(
        &mut m.buffer,
        input.have,
        input.ended,
        p.kept.turned,
        &mut m.cnv,
        &mut m.seq,
        &mut m.lines,
    );
    Ok(Playing {
        kept,
        ended: input.ended,
    })
}

// Writes the lines of a part and plays on, until the tape is over. A proved loop has to end, and nothing says that the input does: so its turns
// are counted, up to a number that no run uses up.
fn play_on<R: Read, W: Write>(
    reader: &mut R,
    writer: &mut W,
    p: Playing,
    m: &mut Memory,
) -> Result<(), Failure>
    requires { (p.kept.left ≤ READ_BYTES) × (p.kept.turned.to ≤ WRITE_BYTES) }
{
    let mut p = p;
    for _ in 0..u64::MAX {
        let turned = p.kept.turned;
        writer
            .write_all(&m.lines[..turned.to])
            .map_err(Failure::Writing)?;
        if tape_pieces::is_over(turned.more, p.ended, p.kept.left) {
            break;
        }
        p = read_on(reader, p, m).map_err(Failure::Reading)?;
    }
    Ok(())
}

// Reads a tape's first bytes, plays the records that open it and those after them, and then the others.
fn play_tape<R: Read, W: Write>(
    reader: &mut R,
    writer: &mut W,
    m: &mut Memory,
) -> Result<(), Failure> {
    let input = fill(reader, &mut m.buffer, 0, false).map_err(Failure::Reading)?;
    let kept = tape_pieces::first_part(
        &mut m.buffer,
        input.have,
        input.ended,
        &mut m.cnv,
        &mut m.seq,
        &mut m.lines,
    );
    let p = Playing {
        kept,
        ended: input.ended,
    };
    play_on(reader, writer, p, m)
}

// Says on standard error what failed, and why.
fn tell<D: Display + Drop>(rt: &impl Eprint, what: &str, why: D) {
    let _ = eprintln!(rt; "{what}: {why}");
}

// Plays the tape of a reader. Where it can't be read, it tells so by this name.
fn play_file<R: Read>(rt: &(impl Print + Eprint), reader: &mut R, name: &str) {
    let mut memory = Memory {
        buffer: [0; READ_BYTES],
        cnv: [0; TABLE_WORDS],
        seq: [0; TABLE_WORDS],
        lines: [0; WRITE_BYTES],
    };
    match play_tape(reader, &mut io::writer(rt), &mut memory) {
        Ok(()) => {}
        Err(Failure::Reading(e)) => tell(rt, name, e),
        Err(Failure::Writing(e)) => tell(rt, "standard output", e),
    }
}

// Plays the tape in the file of this name.
fn play_named(rt: &(impl Files + Print + Eprint), name: &str) {
    match fs::open(rt, name) {
        Ok(mut file) => play_file(rt, &mut file, name),
        Err(e) => tell(rt, name, e),
    }
}

fn help(to: &impl Print) {
    let _ = to.print(
        "usage: play [FILE]\nPlays the tape in FILE, or on standard input, and prints a line for each of its records from MO on.\n",
    );
}

fn has_argument(rt: &impl Env, i: usize) -> bool {
    !matches!(rt.arg(i, &mut []), Err(FillError::NotPresent))
}

// The first argument, or why it can't be taken.
fn first_argument<'a>(
    rt: &impl Env,
    room: &'a mut [u8; NAME_BYTES],
) -> Result<&'a str, &'static str> {
    let n = rt.arg(1, room).map_err(|_| "File name too long")?;
    str::from_utf8(&room[..n]).map_err(|_| "not UTF-8")
}

fn main(rt: HostRuntime) {
    if !has_argument(&rt, 1) {
        play_file(&rt, &mut rt.stdin(), "standard input");
        return;
    }
    if has_argument(&rt, 2) {
        help(&rt.stderr());
        return;
    }
    match first_argument(&rt, &mut [0u8; NAME_BYTES]) {
        Ok("--help") => help(&rt.stdout()),
        Ok(name) => play_named(&rt, name),
        Err(why) => tell(&rt, "the name of the tape", why),
    }
}
