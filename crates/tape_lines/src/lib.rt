// The lines that a tape's records print, put into lent bytes.
#![tactic(auto)]

ghost use Rattle.std.specs.Prelude.{◌≡◌, [], ◌∷◌, ◌+◌, ◌^◌, ◌≤◌, ◌<◌, length, take};
ghost use Rattle.types.specs.Numbers.{listed, refusal_number, refusal_values};
ghost use Rattle.text.specs.Text.{fields};
ghost use Rattle.text.specs.Facts.{Put};
ghost use Rattle.tape_records.specs.Records.{mark_bytes};
ghost use Rattle.tape_lines.specs.Lines.{mark_text, call_mark, letter_of, command_fields, done_fields, call_fields, completion_fields, mount_fields, call_line, completion_line, mount_line, broken_line};
ghost use Rattle.tape_lines.specs.Facts.{two_fields, values_room, answer_room, line_room};

use tape_records::{Letters, Mark, letters_of};
use text::{put_byte, put_field};
use types::{Call, Command, CommandKind, Granted, Refusal, Values};

// No line is longer.
pub const LINE_ROOM: usize = 136;

// The number of a record that is unknown, misplaced or cut.
// It stays a number: no refusal has it, it is the tape's own.
const BROKEN: u64 = 40;

// Two bytes: a mark, or a space and a letter.
fn put_letters(out: &mut [u8], at: usize, l: Letters) -> usize
    requires { at + mark_bytes ≤ length out.old }
    ensures { Put out.old out.new at result (mark_text l) }
{
    let next = put_byte(out, at, l.first);
    put_byte(out, next, l.second)
}

fn put_two_fields(out: &mut [u8], at: usize, a: u64, b: u64) -> usize
    requires { at + two_fields ≤ length out.old }
    ensures put { Put out.old out.new at result (fields (a ∷ b ∷ [])) }
    ensures upper_bound { result ≤ at + two_fields }
{
    let next = put_field(out, at, a);
    put_field(out, next, b)
}

// The values of a refusal.
fn put_values(out: &mut [u8], at: usize, v: Values) -> usize
    requires { at + two_fields ≤ length out.old }
    ensures put { Put out.old out.new at result (fields (listed v)) }
    ensures upper_bound { result ≤ at + two_fields }
{
    match v {
        Values::Nothing => at,
        Values::One(a) => put_field(out, at, a),
        Values::Two(a, b) => put_two_fields(out, at, a, b),
    }
}

// The number of a refusal, and its values.
fn put_refusal(out: &mut [u8], at: usize, x: Refusal) -> usize
    requires { at + answer_room ≤ length out.old }
    ensures put { Put out.old out.new at result (fields (refusal_number x ∷ refusal_values x)) }
    ensures upper_bound { result ≤ at + answer_room }
{
    let code = types::answers::refusal_code(x);
    let next = put_field(out, at, code.number);
    put_values(out, next, code.values)
}

fn letter_of(k: CommandKind) -> u8
    ensures { result ≡ letter_of k }
{
    match k {
        CommandKind::Read => b'R',
        CommandKind::Write => b'W',
        CommandKind::Reset => b'Z',
        CommandKind::Finish => b'F',
        CommandKind::Flush => b'S',
        CommandKind::Open => b'O',
        CommandKind::Close => b'C',
    }
}

// A command: its letter, address and length.
fn put_command(out: &mut [u8], at: usize, c: Command) -> usize
    requires { at + values_room ≤ length out.old }
    ensures put { Put out.old out.new at result (command_fields c) }
    ensures upper_bound { result ≤ at + values_room }
{
    let letter = Letters {
        first: b' ',
        second: letter_of(c.kind),
    };
    let after = put_letters(out, at, letter);
    put_two_fields(out, after, c.address, c.length)
}

// An answer at once: `D` and the count.
fn put_done(out: &mut [u8], at: usize, count: u64) -> usize
    requires { at + values_room ≤ length out.old }
    ensures put { Put out.old out.new at result (done_fields count) }
    ensures upper_bound { result ≤ at + values_room }
{
    let letter = Letters {
        first: b' ',
        second: b'D',
    };
    let next = put_letters(out, at, letter);
    put_field(out, next, count)
}

// What a call's line says after its mark.
fn put_call_answer(out: &mut [u8], at: usize, a: Result<Granted, Refusal>) -> usize
    requires { at + answer_room ≤ length out.old }
    ensures put { Put out.old out.new at result (call_fields a) }
    ensures upper_bound { result ≤ at + answer_room }
{
    match a {
        Err(x) => put_refusal(out, at, x),
        Ok(granted) => {
            let next = put_field(out, at, 0);
            match granted {
                Granted::Done(count) => put_done(out, next, count),
                Granted::Issue(c) => put_command(out, next, c),
            }
        }
    }
}

// The mark of a call's record.
fn call_mark(x: Call) -> Mark
    ensures { result ≡ call_mark x }
{
    match x {
        Call::Read(_, _) => Mark::Read,
        Call::Write(_, _) => Mark::Write,
        Call::Truncate(_) => Mark::Truncate,
        Call::Flush => Mark::Flush,
        Call::Open => Mark::Open,
        Call::Close => Mark::Close,
    }
}

// The line of a call.
pub fn put_call_line(out: &mut [u8], at: usize, x: Call, a: Result<Granted, Refusal>) -> usize
    requires { at + line_room ≤ length out.old }
    ensures put { Put out.old out.new at result (call_line x a) }
    ensures upper_bound { result ≤ at + line_room }
{
    let next = put_letters(out, at, letters_of(call_mark(x)));
    let end = put_call_answer(out, next, a);
    put_byte(out, end, b'\n')
}

// What a completion's line says after its file.
fn put_completion_answer(out: &mut [u8], at: usize, a: Result<Granted, Refusal>) -> usize
    requires { at + answer_room ≤ length out.old }
    ensures put { Put out.old out.new at result (completion_fields a) }
    ensures upper_bound { result ≤ at + answer_room }
{
    match a {
        Err(x) => put_refusal(out, at, x),
        Ok(granted) => {
            let next = put_field(out, at, 0);
            match granted {
                Granted::Done(count) => put_field(out, next, count),
                Granted::Issue(c) => {
                    let rest = put_field(out, next, u64::from(c.kind));
                    put_two_fields(out, rest, c.address, c.length)
                }
            }
        }
    }
}

// The line of a completion with this mark, of the file of this kind and number.
pub fn put_completion_line(
    out: &mut [u8],
    at: usize,
    m: Mark,
    kind: u8,
    number: u32,
    a: Result<Granted, Refusal>,
) -> usize
    requires { at + line_room ≤ length out.old }
    ensures put { Put out.old out.new at result (completion_line m kind number a) }
    ensures upper_bound { result ≤ at + line_room }
{
    let file = put_letters(out, at, letters_of(m));
    let next = put_two_fields(out, file, kind as u64, number as u64);
    let end = put_completion_answer(out, next, a);
    put_byte(out, end, b'\n')
}

// What a mount's line says after its mark.
fn put_mount_answer(out: &mut [u8], at: usize, a: Result<(u32, u32), Refusal>) -> usize
    requires { at + answer_room ≤ length out.old }
    ensures put { Put out.old out.new at result (mount_fields a) }
    ensures upper_bound { result ≤ at + answer_room }
{
    match a {
        Err(x) => put_refusal(out, at, x),
        Ok((conventional, sequential)) => {
            let next = put_field(out, at, 0);
            put_two_fields(out, next, conventional as u64, sequential as u64)
        }
    }
}

// The line of a mount.
pub fn put_mount_line(out: &mut [u8], at: usize, a: Result<(u32, u32), Refusal>) -> usize
    requires { at + line_room ≤ length out.old }
    ensures put { Put out.old out.new at result (mount_line a) }
    ensures upper_bound { result ≤ at + line_room }
{
    let mark = Letters {
        first: b'M',
        second: b'O',
    };
    let next = put_letters(out, at, mark);
    let end = put_mount_answer(out, next, a);
    put_byte(out, end, b'\n')
}

// The line of a record that is unknown, misplaced or cut.
pub fn put_broken_line(out: &mut [u8], at: usize) -> usize
    requires { at + line_room ≤ length out.old }
    ensures put { Put out.old out.new at result broken_line }
    ensures upper_bound { result ≤ at + line_room }
{
    let next = put_letters(out, at, letters_of(Mark::Unknown));
    let end = put_field(out, next, BROKEN);
    put_byte(out, end, b'\n')
}

// Puts the first `n` bytes of a line at `to`, as many as there is room for. Answers the place after all of them.
pub fn copy_line(out: &mut [u8], to: usize, line: &[u8], n: usize) -> usize
    requires { (n ≤ length line.now) × (to + n < 2 ^ 64) }
    ensures { Put out.old out.new to result (take n line.now) }
{
    if to < out.len() {
        let kept = n.min(out.len() - to);
        out[to..to + kept].copy_from_slice(&line[..kept]);
    }
    to + n
}
