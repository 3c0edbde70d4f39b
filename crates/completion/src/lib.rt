// Completions: what the success or the failure of a file's held command answers, does to the mount, and stores of its row.
#![tactic(auto)]

ghost use Rattle.std.specs.Prelude.{◌≡◌};
ghost use Rattle.recovery.specs.Facts.{Fitting};
ghost use Rattle.account.specs.Facts.{Room};
ghost use Rattle.held.specs.Facts.{Safe, PendingSafe};
ghost use Rattle.completion.specs.Completions.{Completion, completion_of, completion_by, succeeded, failing, marked_by, recovering, recovered, effect_on, effect_pending, effect_of, effect_by};

use types::{Effect, ErrorPolicy, FileKind, Granted, Held, Mount, Outcome, Refusal, Row};
use zones::Zone;

#[tactic(auto, unfolding(crate::specs::Completions::succeeded))]
fn succeeded(m: Mount, h: Held, row: Row) -> Effect
    requires { Safe m h row }
    ensures { result ≡ succeeded m h row }
{
    let after = recovery::success::row_after(h.kind, h.command, row);
    Effect {
        outcome: Outcome {
            answer: Ok(Granted::Done(h.command.length)),
            mount: account::accounted(m, h.kind, row, after),
        },
        store: Some((h.kind, h.number, table::cleared(after))),
    }
}

fn marked_by(policy: ErrorPolicy, m: Mount) -> Mount
    ensures { result ≡ marked_by policy m }
{
    match policy {
        ErrorPolicy::RemountRo => types::mounts::made_readonly(m),
        ErrorPolicy::ZoneRo | ErrorPolicy::ZoneOffline | ErrorPolicy::Repair => m,
    }
}

// The command failed: the mount after it, and the row that its file has then.
fn failing(m: Mount, h: Held, row: Row) -> Effect
    ensures { result ≡ failing m h row }
{
    Effect {
        outcome: Outcome {
            answer: Err(Refusal::Failed(row.size)),
            mount: m,
        },
        store: Some((h.kind, h.number, table::cleared(row))),
    }
}

// The command failed, and its file was recovered: the row before, and the row then.
fn recovering(m: Mount, h: Held, before: Row, row: Row) -> Effect
    requires { Room m.account }
    ensures { result ≡ recovering m h before row }
{
    let marked = marked_by(m.volume.policy, m);
    failing(account::accounted(marked, h.kind, before, row), h, row)
}

#[tactic(auto, unfolding(crate::specs::Completions::recovered), using(crate::proofs::Laws::recovered_otherwise))]
fn recovered(m: Mount, h: Held, row: Row, z: Zone) -> Effect
    requires { Room m.account × Fitting h.kind z }
    ensures { result ≡ recovered m h row z }
{
    let failed = h.command.kind;
    if recovery::nothing_lost(h.kind, failed, z, row.size) {
        return failing(m, h, row);
    }
    let after = recovery::recovered_row(m.volume.policy, h.kind, z, row);
    recovering(m, h, row, recovery::kept_open(failed, after))
}

// Check 9, and then as the record says.
#[tactic(auto, using(recovery::proofs::Laws::misfit_faultless))]
fn effect_of_record(m: Mount, h: Held, row: Row, z: Zone) -> Effect
    requires { Safe m h row }
    ensures { result ≡ effect_on m h row (Completion.failed z) }
{
    let fault = recovery::fits::misfit(m.volume.block, h.kind, row, z);
    if zones::is_faultless(fault) {
        recovered(m, h, row, z)
    } else {
        types::effects::refusing(m, Refusal::BadRecord(fault))
    }
}

// Bytes of another length are no record: 9 too, and no field of it can be named.
#[tactic(auto, unfolding(crate::specs::Completions::completion_of))]
fn effect_of_bytes(m: Mount, h: Held, row: Row, bytes: &[u8], given: bool) -> Effect
    requires { Safe m h row }
    ensures { result ≡ effect_on m h row (completion_of given bytes.now) }
{
    if bytes.len() == zones::ZONE_BYTES {
        effect_of_record(m, h, row, zones::zone_at(bytes, 0, given))
    } else {
        types::effects::refusing(m, Refusal::BadRecord(None))
    }
}

fn effect_pending(
    m: Mount,
    p: Result<(Held, Row), Refusal>,
    done: bool,
    bytes: &[u8],
    given: bool,
) -> Effect
    requires { PendingSafe m p }
    ensures { result ≡ effect_pending m p (completion_by done given bytes.now) }
{
    match p {
        Ok((h, row)) if done => succeeded(m, h, row),
        Ok((h, row)) => effect_of_bytes(m, h, row, bytes, given),
        Err(x) => types::effects::refusing(m, x),
    }
}

// The command that a file has outstanding was done well, or it failed: then the bytes are its zone's record, and `given` says that the record
// states a capacity. One row is read.
#[tactic(auto, using(held::proofs::Laws::pending_safe))]
fn end_command(
    m: Mount,
    cnv: &[u64],
    seq: &[u64],
    kind: FileKind,
    number: u32,
    done: bool,
    bytes: &[u8],
    given: bool,
) -> Effect
    ensures { result ≡ effect_of m cnv.now seq.now kind number (completion_by done given bytes.now) }
{
    let p = held::find_pending(m, cnv, seq, kind, number);
    effect_pending(m, p, done, bytes, given)
}

// Of a file whose kind is given as a number.
// The kind stays a number, and the end a flag with a record: `effect_by` and `completion_by` of the specs take them so.
#[tactic(auto, unfolding(crate::specs::Completions::effect_by))]
pub fn end_by(
    m: Mount,
    cnv: &[u64],
    seq: &[u64],
    kind: u64,
    number: u32,
    done: bool,
    bytes: &[u8],
    given: bool,
) -> Effect
    ensures { result ≡ effect_by m cnv.now seq.now kind number (completion_by done given bytes.now) }
{
    if types::codes::is_kind(kind) {
        let k = types::codes::kind_from(kind);
        end_command(m, cnv, seq, k, number, done, bytes, given)
    } else {
        types::effects::refusing(m, checks::no_kind(m, cnv.len(), seq.len()))
    }
}
