// An open, a close and the completions of a mount whose account is lent: it is changed in place. Each thin function over the lent account takes
// it out whole, has everything decided by a function over the account by value, and stores it back whole.
#![tactic(auto)]

ghost use Rattle.std.specs.Prelude.{◌≡◌};
ghost use Rattle.lent.specs.Lent.{mount_with, called, opened, closed, completed, failed, settled_of, settled_by};

use types::{Account, Call, Granted, Mount, Outcome, Refusal, Volume};

// What is asked of a mount beside its account and its tables: what it fixes, its read-only mark, and the file.
#[derive(Clone, Copy)]
pub struct Asked {
    pub volume: Volume,
    pub readonly: bool,
    pub kind: u64,
    pub number: u32,
}

// The same of a command that failed; `given` says that the zone's record states a capacity.
#[derive(Clone, Copy)]
pub struct Failed {
    pub asked: Asked,
    pub given: bool,
}

// What is answered, and the read-only mark afterwards.
#[derive(Clone, Copy)]
pub struct Reply {
    pub answer: Result<Granted, Refusal>,
    pub readonly: bool,
}

// The same, and the account afterwards.
#[derive(Clone, Copy)]
struct Settled {
    reply: Reply,
    account: Account,
}

// The mount that the account is part of.
fn mount_with(account: Account, x: Asked) -> Mount
    ensures { result ≡ mount_with account x }
{
    Mount {
        volume: x.volume,
        readonly: x.readonly,
        account,
    }
}

// What the engine handed back, without what a mount fixes.
fn settle(outcome: Outcome) -> Settled
    ensures { result ≡ settled_of outcome.answer outcome.mount }
{
    Settled {
        reply: Reply {
            answer: outcome.answer,
            readonly: outcome.mount.readonly,
        },
        account: outcome.mount.account,
    }
}

// The account by value: each call and completion is decided here, an open and a close by the same function.
fn call_settled(account: Account, cnv: &mut [u64], seq: &mut [u64], x: Asked, call: Call) -> Settled
    ensures value { result ≡ settled_by (called account cnv.old seq.old x call) }
    ensures cnv_after { cnv.new ≡ (called account cnv.old seq.old x call).state.cnv }
    ensures seq_after { seq.new ≡ (called account cnv.old seq.old x call).state.seq }
{
    let m = mount_with(account, x);
    settle(engine::call(m, cnv, seq, x.kind, x.number, call))
}

fn complete_settled(account: Account, cnv: &mut [u64], seq: &mut [u64], x: Asked) -> Settled
    ensures value { result ≡ settled_by (completed account cnv.old seq.old x) }
    ensures cnv_after { cnv.new ≡ (completed account cnv.old seq.old x).state.cnv }
    ensures seq_after { seq.new ≡ (completed account cnv.old seq.old x).state.seq }
{
    let m = mount_with(account, x);
    settle(engine::complete(m, cnv, seq, x.kind, x.number))
}

fn fail_settled(
    account: Account,
    cnv: &mut [u64],
    seq: &mut [u64],
    x: Failed,
    bytes: &[u8],
) -> Settled
    ensures value { result ≡ settled_by (failed account cnv.old seq.old x bytes.now) }
    ensures cnv_after { cnv.new ≡ (failed account cnv.old seq.old x bytes.now).state.cnv }
    ensures seq_after { seq.new ≡ (failed account cnv.old seq.old x bytes.now).state.seq }
{
    let asked = x.asked;
    let m = mount_with(account, asked);
    settle(engine::fail(m, cnv, seq, asked.kind, asked.number, bytes, x.given))
}

// An open of a file for writing.
pub fn open(a: &mut Account, cnv: &mut [u64], seq: &mut [u64], x: Asked) -> Reply
    ensures answer { result.answer ≡ (opened a.old cnv.old seq.old x).reply }
    ensures mark { result.readonly ≡ (opened a.old cnv.old seq.old x).state.mount.readonly }
    ensures account { a.new ≡ (opened a.old cnv.old seq.old x).state.mount.account }
    ensures cnvs { cnv.new ≡ (opened a.old cnv.old seq.old x).state.cnv }
    ensures seqs { seq.new ≡ (opened a.old cnv.old seq.old x).state.seq }
{
    let settled = call_settled(*a, cnv, seq, x, Call::Open);
    *a = settled.account;
    settled.reply
}

// A close of a file.
pub fn close(a: &mut Account, cnv: &mut [u64], seq: &mut [u64], x: Asked) -> Reply
    ensures answer { result.answer ≡ (closed a.old cnv.old seq.old x).reply }
    ensures mark { result.readonly ≡ (closed a.old cnv.old seq.old x).state.mount.readonly }
    ensures account { a.new ≡ (closed a.old cnv.old seq.old x).state.mount.account }
    ensures cnvs { cnv.new ≡ (closed a.old cnv.old seq.old x).state.cnv }
    ensures seqs { seq.new ≡ (closed a.old cnv.old seq.old x).state.seq }
{
    let settled = call_settled(*a, cnv, seq, x, Call::Close);
    *a = settled.account;
    settled.reply
}

// The command that a file has outstanding was done well.
pub fn complete(a: &mut Account, cnv: &mut [u64], seq: &mut [u64], x: Asked) -> Reply
    ensures answer { result.answer ≡ (completed a.old cnv.old seq.old x).reply }
    ensures mark { result.readonly ≡ (completed a.old cnv.old seq.old x).state.mount.readonly }
    ensures account { a.new ≡ (completed a.old cnv.old seq.old x).state.mount.account }
    ensures cnvs { cnv.new ≡ (completed a.old cnv.old seq.old x).state.cnv }
    ensures seqs { seq.new ≡ (completed a.old cnv.old seq.old x).state.seq }
{
    let settled = complete_settled(*a, cnv, seq, x);
    *a = settled.account;
    settled.reply
}

// The command that a file has outstanding failed: the bytes are its zone's record.
pub fn fail(a: &mut Account, cnv: &mut [u64], seq: &mut [u64], x: Failed, bytes: &[u8]) -> Reply
    ensures answer { result.answer ≡ (failed a.old cnv.old seq.old x bytes.now).reply }
    ensures mark { result.readonly ≡ (failed a.old cnv.old seq.old x bytes.now).state.mount.readonly }
    ensures account { a.new ≡ (failed a.old cnv.old seq.old x bytes.now).state.mount.account }
    ensures cnvs { cnv.new ≡ (failed a.old cnv.old seq.old x bytes.now).state.cnv }
    ensures seqs { seq.new ≡ (failed a.old cnv.old seq.old x bytes.now).state.seq }
{
    let settled = fail_settled(*a, cnv, seq, x, bytes);
    *a = settled.account;
    settled.reply
}
