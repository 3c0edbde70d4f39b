// One record of a tape: what it does, the line that it prints, and what it leaves.
#![tactic(auto)]

ghost use Rattle.std.specs.Prelude.{◌≡◌, true, List, ℕ, ◌+◌, ◌≤◌, length};
ghost use Rattle.engine.specs.Engine.{Input, step};
ghost use Rattle.engine.specs.Facts.{state_of};
ghost use Rattle.tape_records.specs.Records.{end_bytes, run_place};
ghost use Rattle.tape_records.specs.Facts.{Opened};
ghost use Rattle.tape_turns.specs.Turns.{call_turn, end_turn, broken_turn, mount_turn, turn_at, mounting, open_turn};
ghost use Rattle.tape_lines.specs.Facts.{line_room};
ghost use Rattle.tape_turns.specs.Facts.{Takes};

use tape_records::{CALL_BYTES, Record};
use types::{Call, Mount, MountOutcome};

// What a record left: the place after its line, whether the tape goes on, the place of the next record, and the mount.
// The flag stays beside the rest: where a tape stops, all of it is still handed on.
#[derive(Clone, Copy)]
pub struct Turned {
    pub to: usize,
    pub more: bool,
    pub next: usize,
    pub mount: Mount,
}

// The turn of a call. The next record stands at `next`.
fn call_turn(
    m: Mount,
    cnv: &mut [u64],
    seq: &mut [u64],
    kind: u8,
    number: u32,
    x: Call,
    next: usize,
    out: &mut [u8],
    to: usize,
) -> Turned
    requires { to + line_room ≤ length out.old }
    ensures { Takes (call_turn next x (step (state_of m cnv.old seq.old) (Input.call kind number x))) out.old out.new to result cnv.new seq.new }
{
    let o = engine::call(m, cnv, seq, kind as u64, number, x);
    Turned {
        to: tape_lines::put_call_line(out, to, x, o.answer),
        more: true,
        next,
        mount: o.mount,
    }
}

// The turn of a record that is unknown, misplaced or cut: the tape stops at it.
fn broken_turn(at: usize, m: Mount, out: &mut [u8], to: usize) -> Turned
    requires { to + line_room ≤ length out.old }
    ensures { (cnv seq : List ℕ) → Takes (broken_turn at (state_of m cnv seq)) out.old out.new to result cnv seq }
{
    Turned {
        to: tape_lines::put_broken_line(out, to),
        more: false,
        next: at,
        mount: m,
    }
}

// The turn of the end of a file's command, that it was done or that it failed. A record on a tape always states a capacity.
fn end_turn(
    b: &[u8],
    at: usize,
    kind: u8,
    number: u32,
    done: bool,
    m: Mount,
    cnv: &mut [u64],
    seq: &mut [u64],
    out: &mut [u8],
    to: usize,
) -> Turned
    requires { (at + end_bytes done ≤ length b.now) × (to + line_room ≤ length out.old) }
    ensures { Takes (end_turn b.now at (state_of m cnv.old seq.old) kind number done) out.old out.new to result cnv.new seq.new }
{
    let next = at + tape_records::end_bytes(done);
    let record = tape_records::end_record(b, at, done);
    let mark = tape_records::end_mark(done);
    let o = engine::end_command(m, cnv, seq, kind as u64, number, done, record, true);
    Turned {
        to: tape_lines::put_completion_line(out, to, mark, kind, number, o.answer),
        more: true,
        next,
        mount: o.mount,
    }
}

// Plays the record at `at`: puts its line at `to`, and hands back what it left.
#[tactic(auto, unfolding(crate::specs::Turns::turn_at))]
pub fn take_turn(
    b: &[u8],
    at: usize,
    m: Mount,
    cnv: &mut [u64],
    seq: &mut [u64],
    out: &mut [u8],
    to: usize,
) -> Turned
    requires { to + line_room ≤ length out.old }
    ensures { Takes (turn_at b.now at (state_of m cnv.old seq.old)) out.old out.new to result cnv.new seq.new }
{
    let Some(record) = tape_records::record_at(b, at) else {
        return broken_turn(at, m, out, to);
    };
    match record {
        Record::OnFile(kind, number, x) => {
            call_turn(m, cnv, seq, kind, number, x, at + CALL_BYTES, out, to)
        }
        Record::End(kind, number, done) => {
            end_turn(b, at, kind, number, done, m, cnv, seq, out, to)
        }
    }
}

// Mounts from the first four records.
fn mount_from(b: &[u8], cnv: &mut [u64], seq: &mut [u64]) -> MountOutcome
    requires { Opened b.now }
    ensures { mounting b.now cnv.old seq.old ≡ record { answer = result.answer; mount = result.mount; cnv = cnv.new; seq = seq.new } }
{
    mount::mount(
        tape_records::block_of(b) as u64,
        tape_records::super_bytes(b),
        tape_records::option_bytes(b),
        tape_records::report_bytes(b),
        tape_records::open_limit_of(b),
        tape_records::active_limit_of(b),
        cnv,
        seq,
    )
}

// The turn of the first four records, where they stand.
fn mount_turn(b: &[u8], cnv: &mut [u64], seq: &mut [u64], out: &mut [u8], to: usize) -> Turned
    requires { Opened b.now × (to + line_room ≤ length out.old) }
    ensures { Takes (mount_turn (run_place b.now) (mounting b.now cnv.old seq.old)) out.old out.new to result cnv.new seq.new }
{
    let next = tape_records::run_place(b);
    let o = mount_from(b, cnv, seq);
    Turned {
        to: tape_lines::put_mount_line(out, to, o.answer),
        more: o.answer.is_ok(),
        next,
        mount: o.mount,
    }
}

// Plays the first four records.
#[tactic(auto, unfolding(crate::specs::Turns::open_turn))]
pub fn open_tape(b: &[u8], cnv: &mut [u64], seq: &mut [u64], out: &mut [u8], to: usize) -> Turned
    requires { to + line_room ≤ length out.old }
    ensures { Takes (open_turn b.now cnv.old seq.old) out.old out.new to result cnv.new seq.new }
{
    if tape_records::opens(b) {
        mount_turn(b, cnv, seq, out, to)
    } else {
        broken_turn(0, types::mounts::empty_mount(), out, to)
    }
}
