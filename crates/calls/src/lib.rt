// The calls on a mounted volume: read, write, truncate, flush, open and close. One that issues a command stores it in its file's row, and an open or
// a close is counted there and in the mount's account.
#![tactic(auto)]

ghost use Rattle.std.specs.Prelude.{◌≡◌, true, ◌+◌, ◌/◌, ◌^◌, ◌≤◌};
ghost use Rattle.types.specs.Blocks.{sector_bytes, good_block};
ghost use Rattle.checks.specs.Checks.{sound_slot};
ghost use Rattle.checks.specs.Facts.{Ends};
ghost use Rattle.account.specs.Facts.{Room};
ghost use Rattle.decision.specs.Facts.{Countable, Settles};
ghost use Rattle.calls.specs.Calls.{on_row, on_file, mount_after, store_at_once, settled, effect_of, effect_by};

use types::{Call, Effect, FileKind, Granted, Mount, Outcome, Outstanding, Refusal, Row};

// Check 2, of the named file, and then the call on its row, within the account's limits.
#[tactic(auto, unfolding(types::specs::Verdicts::refuse, types::specs::Verdicts::answer_after), using(decision::proofs::Laws::dispatch_settles))]
fn on_row(m: Mount, kind: FileKind, row: Row, x: Call) -> Result<Granted, Refusal>
    requires { (good_block m.volume.block ≡ true) × (row.start + row.capacity / sector_bytes ≤ 2 ^ 40) }
    ensures { result ≡ on_row m kind row x }
{
    let busy = types::predicates::is_busy(row.outstanding);
    types::answers::refuse_if(busy, Refusal::Busy)?;
    let v = m.volume;
    let answer = decision::dispatch(m.readonly, v.explicit, v.block, kind, row, x);
    decision::within_limits(v.explicit, m.account, kind, row, x, answer)
}

// The mount that a call leaves which is commanded or answered: an open or a close is accounted for.
fn mount_after(m: Mount, kind: FileKind, row: Row, x: Call) -> Mount
    requires { Room m.account × Countable kind x row }
    ensures { result ≡ mount_after m kind row x }
{
    if decision::is_counting(kind, x) {
        account::accounted(m, kind, row, decision::called(kind, x, row))
    } else {
        m
    }
}

// What a call stores that is answered at once: the row of an open or a close.
fn store_at_once(kind: FileKind, number: u32, row: Row, x: Call) -> Option<(FileKind, u32, Row)>
    requires { Countable kind x row }
    ensures { result ≡ store_at_once kind number row x }
{
    if decision::is_counting(kind, x) {
        Some((kind, number, decision::called(kind, x, row)))
    } else {
        None
    }
}

// What an answer does: an issued command is stored in the file's row, and an open or a close is counted.
fn settle(
    m: Mount,
    kind: FileKind,
    number: u32,
    row: Row,
    x: Call,
    answer: Result<Granted, Refusal>,
) -> Effect
    requires { Room m.account × Settles kind x row answer }
    ensures { result ≡ settled m kind number row x answer }
{
    match answer {
        Ok(Granted::Issue(command)) => {
            let mount = mount_after(m, kind, row, x);
            let after = table::holding(decision::called(kind, x, row), command);
            Effect {
                outcome: Outcome { answer, mount },
                store: Some((kind, number, after)),
            }
        }
        Ok(Granted::Done(_)) => {
            let mount = mount_after(m, kind, row, x);
            let store = store_at_once(kind, number, row, x);
            Effect {
                outcome: Outcome { answer, mount },
                store,
            }
        }
        Err(_) => types::effects::answering(answer, m),
    }
}

#[tactic(auto, using(crate::proofs::Laws::row_settles))]
fn on_file(m: Mount, kind: FileKind, number: u32, file: Result<Row, Refusal>, x: Call) -> Effect
    requires { (good_block m.volume.block ≡ true) × (Room m.account × Ends file) }
    ensures { result ≡ on_file m kind number file x }
{
    match file {
        Ok(row) => settle(m, kind, number, row, x, on_row(m, kind, row, x)),
        Err(y) => types::effects::refusing(m, y),
    }
}

// A call on a file that was found: checks 10 (row) and 2, and then as its row says.
#[tactic(auto, using(checks::proofs::Laws::slot_counted))]
fn call_on(m: Mount, kind: FileKind, number: u32, slot: Result<Row, Outstanding>, x: Call) -> Effect
    requires { (good_block m.volume.block ≡ true) × Room m.account }
    ensures { result ≡ on_file m kind number (sound_slot m kind slot) x }
{
    let ruled = checks::ruled_slot(m.volume.block, kind, slot);
    let file = checks::counted_file(m, kind, ruled);
    on_file(m, kind, number, file, x)
}

// A call on a file: 10 (counts), 1, and then as of the file. One row is read, however many there are.
#[tactic(auto, using(checks::proofs::Laws::file_counts, checks::proofs::Laws::file_none, checks::proofs::Laws::file_found))]
pub fn call(m: Mount, cnv: &[u64], seq: &[u64], kind: FileKind, number: u32, x: Call) -> Effect
    ensures { result ≡ effect_of m cnv.now seq.now kind number x }
{
    if !checks::counts_fit(m, cnv.len(), seq.len()) {
        return types::effects::refusing(m, Refusal::Impossible);
    }
    let Some(slot) = checks::lookup_of(m, cnv, seq, kind, number) else {
        return types::effects::refusing(m, Refusal::NoFile);
    };
    call_on(m, kind, number, slot, x)
}

// A call on a file whose kind is given as a number.
// The kind stays a number: the specs answer on any, and 1 on those above 1 (`effect_by`).
#[tactic(auto, unfolding(crate::specs::Calls::effect_by))]
pub fn call_by(m: Mount, cnv: &[u64], seq: &[u64], kind: u64, number: u32, x: Call) -> Effect
    ensures { result ≡ effect_by m cnv.now seq.now kind number x }
{
    if types::codes::is_kind(kind) {
        call(m, cnv, seq, types::codes::kind_from(kind), number, x)
    } else {
        types::effects::refusing(m, checks::no_kind(m, cnv.len(), seq.len()))
    }
}
