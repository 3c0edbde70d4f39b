// The engine's entry points: a call, a command that was done, and one that failed. Each is one step of the one transition function.
#![tactic(auto)]

ghost use Rattle.std.specs.Prelude.{◌≡◌};
ghost use Rattle.types.specs.declared.Mount.{Mount};
ghost use Rattle.table.specs.Facts.{StoreFits};
ghost use Rattle.completion.specs.Completions.{Completion, completion_of, completion_by};
ghost use Rattle.engine.specs.Engine.{Input, step_by, step};
ghost use Rattle.engine.specs.Facts.{state_of, step_of};

use types::{Call, Effect, Mount, Outcome};

// Applies an effect to the tables. At most one row is written.
fn apply(cnv: &mut [u64], seq: &mut [u64], effect: Effect) -> Outcome
    requires { StoreFits cnv.old seq.old effect.store }
    ensures { (m : Mount) → step_by (state_of m cnv.old seq.old) effect ≡ step_of result cnv.new seq.new }
{
    table::put_store(cnv, seq, effect.store);
    effect.outcome
}

// A call on a file whose kind is given as a number.
pub fn call(m: Mount, cnv: &mut [u64], seq: &mut [u64], kind: u64, number: u32, x: Call) -> Outcome
    ensures { step (state_of m cnv.old seq.old) (Input.call kind number x) ≡ step_of result cnv.new seq.new }
{
    let effect = calls::call_by(m, &cnv[..], &seq[..], kind, number, x);
    apply(cnv, seq, effect)
}

// The command that a file has outstanding was done well, or it failed: then the bytes are its zone's record, and `given` says that the record
// states a capacity. For those that are told by a flag which of both it is.
// It, `complete` and `fail` stay three: public entry points, which docs/TRACE.md names, over this one body.
pub fn end_command(
    m: Mount,
    cnv: &mut [u64],
    seq: &mut [u64],
    kind: u64,
    number: u32,
    done: bool,
    bytes: &[u8],
    given: bool,
) -> Outcome
    ensures { step (state_of m cnv.old seq.old) (Input.completion kind number (completion_by done given bytes.now)) ≡ step_of result cnv.new seq.new }
{
    let effect = completion::end_by(m, &cnv[..], &seq[..], kind, number, done, bytes, given);
    apply(cnv, seq, effect)
}

// The command that a file has outstanding was done well.
pub fn complete(m: Mount, cnv: &mut [u64], seq: &mut [u64], kind: u64, number: u32) -> Outcome
    ensures { step (state_of m cnv.old seq.old) (Input.completion kind number Completion.good) ≡ step_of result cnv.new seq.new }
{
    end_command(m, cnv, seq, kind, number, true, b"", false)
}

// The command that a file has outstanding failed.
pub fn fail(
    m: Mount,
    cnv: &mut [u64],
    seq: &mut [u64],
    kind: u64,
    number: u32,
    bytes: &[u8],
    given: bool,
) -> Outcome
    ensures { step (state_of m cnv.old seq.old) (Input.completion kind number (completion_of given bytes.now)) ≡ step_of result cnv.new seq.new }
{
    end_command(m, cnv, seq, kind, number, false, bytes, given)
}
