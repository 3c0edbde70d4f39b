// Mounting, finding and showing for a caller in C. A mount value lives in words that the caller keeps, its account in words beside them, and an answer is
// a number, with its values in words that the caller lends. Any words whatever are taken: those that hold no mount value answer 10.
#![tactic(auto)]

ghost use Rattle.std.specs.Prelude.{◌≡◌, true, List, ℕ, ◌≤◌, length};
ghost use Rattle.mount_words.specs.Words.{mount_length, account_length};
ghost use Rattle.answer_words.specs.Answers.{answer_length};
ghost use Rattle.mount_call_words.specs.Words.{find_words, show_words, roomy, told_mounted, mount_given};

use types::{MountOutcome, Refusal};

// The words of a mount value, of its account and of an answer are long enough.
#[tactic(auto, unfolding(crate::specs::Words::roomy))]
fn is_roomy(w: usize, account: usize, a: usize) -> bool
    ensures value { result ≡ roomy w account a }
    ensures mount_length_le_w { result ≡ true → (mount_length ≤ w) × (account_length ≤ account) × (answer_length ≤ a) }
{
    mount_words::MOUNT_WORDS <= w
        && mount_words::ACCOUNT_WORDS <= account
        && answer_words::ANSWER_WORDS <= a
}

#[tactic(auto, unfolding(answer_words::specs::Answers::answer_words))]
fn tell_mounted(w: &mut [u64], account: &mut [u64], a: &mut [u64], o: MountOutcome) -> u64
    requires { (mount_length ≤ length w.old) × (account_length ≤ length account.old) × (answer_length ≤ length a.old) }
    ensures { (cnv seq : List ℕ) → told_mounted w.old account.old a.old (record { answer = o.answer; mount = o.mount; cnv = cnv; seq = seq }) ≡ record { number = result; mount = w.new; account = account.new; cnv = cnv; seq = seq; answer = a.new } }
{
    mount_words::put_all(w, account, o.mount);
    answer_words::tell(a, o.answer, answer_words::mount_values(o.answer))
}

// Mounts: fills both tables and the words of the mount and of its account.
#[tactic(auto, unfolding(crate::specs::Words::mount_given))]
pub fn mount(
    block: u64,
    superblock: &[u8],
    options: &[u8],
    report: &[u8],
    open_limit: u32,
    active_limit: u32,
    cnv: &mut [u64],
    seq: &mut [u64],
    w: &mut [u64],
    account: &mut [u64],
    a: &mut [u64],
) -> u64
    ensures { mount_given block superblock.now options.now report.now open_limit active_limit cnv.old seq.old w.old account.old a.old ≡ record { number = result; mount = w.new; account = account.new; cnv = cnv.new; seq = seq.new; answer = a.new } }
{
    if !is_roomy(w.len(), account.len(), a.len()) {
        return types::answers::refusal_number(Refusal::Impossible);
    }
    tell_mounted(
        w,
        account,
        a,
        mount::mount(
            block,
            superblock,
            options,
            report,
            open_limit,
            active_limit,
            cnv,
            seq,
        ),
    )
}

// The file of a name.
#[tactic(auto, unfolding(crate::specs::Words::find_words, answer_words::specs::Answers::answer_words))]
pub fn find(w: &[u64], account: &[u64], cnv: &[u64], seq: &[u64], name: &[u8], a: &mut [u64]) -> u64
    ensures { find_words w.now account.now cnv.now seq.now name.now a.old ≡ record { number = result; answer = a.new } }
{
    if !step_words::is_usable(w, account, a.len()) {
        return types::answers::refusal_number(Refusal::Impossible);
    }
    let m = mount_words::mount_from(w, account);
    let x = inspect::find(m, cnv, seq, name);
    answer_words::tell(a, x, answer_words::find_values(x))
}

// A file's row, and the mode that it is shown with.
#[tactic(auto, unfolding(crate::specs::Words::show_words, answer_words::specs::Answers::answer_words))]
pub fn show(
    w: &[u64],
    account: &[u64],
    cnv: &[u64],
    seq: &[u64],
    kind: u32,
    number: u32,
    a: &mut [u64],
) -> u64
    ensures { show_words w.now account.now cnv.now seq.now kind number a.old ≡ record { number = result; answer = a.new } }
{
    if !step_words::is_usable(w, account, a.len()) {
        return types::answers::refusal_number(Refusal::Impossible);
    }
    let m = mount_words::mount_from(w, account);
    let x = inspect::show_by(m, cnv, seq, kind as u64, number);
    answer_words::tell(a, x, answer_words::show_values(x))
}
