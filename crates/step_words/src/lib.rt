// Calls and completions for a caller in C. The mount value lives in words that the caller keeps, its account in words beside them, and an answer is a
// number, with its values in words that the caller lends. Any words whatever are taken: those that hold no mount value answer 10.
#![tactic(auto)]

ghost use Rattle.std.specs.Prelude.{◌≡◌, true, ◌≤◌, length};
ghost use Rattle.types.specs.Numbers.{answer_number, answer_values};
ghost use Rattle.completion.specs.Completions.{completion_by};
ghost use Rattle.mount_words.specs.Words.{mount_length, account_length};
ghost use Rattle.answer_words.specs.Answers.{answer_length, answer_words, written};
ghost use Rattle.engine.specs.Engine.{Input};
ghost use Rattle.step_words.specs.Words.{usable, step_words};

use types::{Call, Granted, Refusal};

// The words hold a mount value with its account, and the answer has room.
#[tactic(auto, unfolding(crate::specs::Words::usable))]
pub fn is_usable(w: &[u64], account: &[u64], room: usize) -> bool
    ensures value { result ≡ usable w.now account.now room }
    ensures mount_length_in_bounds { result ≡ true → (mount_length ≤ length w.now) × (account_length ≤ length account.now) × (answer_length ≤ room) }
{
    mount_words::is_possible(w, account) && answer_words::ANSWER_WORDS <= room
}

// Puts an answer into its words, and gives its number. The mount's words are put by the callers: with both in one function the whole outcome
// would be handed over in memory.
#[tactic(auto, unfolding(answer_words::specs::Answers::answer_words))]
fn tell(a: &mut [u64], x: Result<Granted, Refusal>) -> u64
    requires { answer_length ≤ length a.old }
    ensures { (answer_number x ≡ result) × (written a.old (answer_words (answer_values x)) ≡ a.new) }
{
    answer_words::tell(a, x, answer_words::answer_values(x))
}

// A call, with the words of the mount, of its account and of the answer. `end_command` differs in the engine's function alone: a closure for that, lent
// both tables, would need its own contract told of by `post`, which is no plainer than the five lines that they share.
#[tactic(auto, unfolding(crate::specs::Words::step_words))]
pub fn call(
    w: &mut [u64],
    account: &mut [u64],
    cnv: &mut [u64],
    seq: &mut [u64],
    kind: u32,
    number: u32,
    x: Call,
    a: &mut [u64],
) -> u64
    ensures { step_words w.old account.old cnv.old seq.old (Input.call kind number x) a.old ≡ record { number = result; mount = w.new; account = account.new; cnv = cnv.new; seq = seq.new; answer = a.new } }
{
    if !is_usable(&w[..], &account[..], a.len()) {
        return types::answers::refusal_number(Refusal::Impossible);
    }
    let m = mount_words::mount_from(&w[..], &account[..]);
    let o = engine::call(m, cnv, seq, kind as u64, number, x);
    mount_words::put_state(w, account, o.mount);
    tell(a, o.answer)
}

// The end of a file's outstanding command, with the words of the mount, of its account and of the answer.
#[tactic(auto, unfolding(crate::specs::Words::step_words))]
pub fn end_command(
    w: &mut [u64],
    account: &mut [u64],
    cnv: &mut [u64],
    seq: &mut [u64],
    kind: u32,
    number: u32,
    done: bool,
    bytes: &[u8],
    given: bool,
    a: &mut [u64],
) -> u64
    ensures { step_words w.old account.old cnv.old seq.old (Input.completion kind number (completion_by done given bytes.now)) a.old ≡ record { number = result; mount = w.new; account = account.new; cnv = cnv.new; seq = seq.new; answer = a.new } }
{
    if !is_usable(&w[..], &account[..], a.len()) {
        return types::answers::refusal_number(Refusal::Impossible);
    }
    let m = mount_words::mount_from(&w[..], &account[..]);
    let o = engine::end_command(m, cnv, seq, kind as u64, number, done, bytes, given);
    mount_words::put_state(w, account, o.mount);
    tell(a, o.answer)
}
