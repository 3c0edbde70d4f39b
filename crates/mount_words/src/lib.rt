// A mount value in the words that a caller keeps, its account in words of their own.
#![tactic(auto)]

ghost use Rattle.std.specs.Prelude.{◌≡◌, true, ◌+◌, ◌%◌, ◌≤◌, ◌<◌, length, ◌++◌};
ghost use Rattle.std.proofs.lemmas.List.Edits.{sets};
ghost use Rattle.wire.specs.Le.{le, little};
ghost use Rattle.answer_words.specs.Answers.{written};
ghost use Rattle.mount_words.specs.Words.{mount_length, account_length, volume_words, mount_words, account_words, word, good_volume, good_state, possible_mount, good_account, possible_account, possible, short_of, volume_from, account_from, mount_from, with_state, with_counts};

use types::{Account, Mount, Volume, codes};

// The words of a mount value.
pub const MOUNT_WORDS: usize = 11;

// Where its fields stand: what the mount fixes, its state, and the option that came later.
const BLOCK: usize = 0;

const CONVENTIONAL: usize = 1;

const SEQUENTIAL: usize = 2;

const OWNER: usize = 3;

const GROUP: usize = 4;

const MODE: usize = 5;

const POLICY: usize = 6;

const UUID_LOW: usize = 7;

const UUID_HIGH: usize = 8;

const READONLY: usize = 9;

const EXPLICIT: usize = 10;

// The words of its account.
pub const ACCOUNT_WORDS: usize = 4;

// Where its numbers stand: the counts, and their limits.
const OPENED: usize = 0;

const ACTIVE: usize = 1;

const OPEN_LIMIT: usize = 2;

const ACTIVE_LIMIT: usize = 3;

// 2 ^ 32: numbers of 32 bits are below it.
pub const SHORT: u64 = 4294967296;

// The codes of yes and no.
pub const FLAGS: u64 = 2;

fn good_volume(w: &[u64]) -> bool
    requires { mount_length ≤ length w.now }
    ensures { result ≡ good_volume w.now }
{
    (w[CONVENTIONAL] < SHORT)
        & (w[SEQUENTIAL] < SHORT)
        & (w[OWNER] < SHORT)
        & (w[GROUP] < SHORT)
        & (w[MODE] < SHORT)
        & (w[POLICY] < codes::POLICIES)
        & (w[EXPLICIT] < FLAGS)
}

fn good_state(w: &[u64]) -> bool
    requires { mount_length ≤ length w.now }
    ensures { result ≡ good_state w.now }
{
    w[READONLY] < FLAGS
}

#[tactic(auto, unfolding(crate::specs::Words::possible_mount))]
fn is_mount(w: &[u64]) -> bool
    ensures value { result ≡ possible_mount w.now }
    ensures mount_length_in_bounds { result ≡ true → mount_length ≤ length w.now }
{
    MOUNT_WORDS <= w.len() && good_volume(w) && good_state(w)
}

fn good_account(x: &[u64]) -> bool
    requires { account_length ≤ length x.now }
    ensures { result ≡ good_account x.now }
{
    (x[OPENED] < SHORT) & (x[ACTIVE] < SHORT) & (x[OPEN_LIMIT] < SHORT) & (x[ACTIVE_LIMIT] < SHORT)
}

#[tactic(auto, unfolding(crate::specs::Words::possible_account))]
fn is_account(x: &[u64]) -> bool
    ensures value { result ≡ possible_account x.now }
    ensures account_length_in_bounds { result ≡ true → account_length ≤ length x.now }
{
    ACCOUNT_WORDS <= x.len() && good_account(x)
}

// The words hold a mount value, and those beside them its account. Any words are taken.
#[tactic(auto, unfolding(crate::specs::Words::possible))]
pub fn is_possible(w: &[u64], x: &[u64]) -> bool
    ensures value { result ≡ possible w.now x.now }
    ensures mount_length_in_bounds { result ≡ true → (mount_length ≤ length w.now) × (account_length ≤ length x.now) }
{
    is_mount(w) && is_account(x)
}

// The number of 32 bits in a word.
fn short_at(w: &[u64], k: usize) -> u32
    requires { k < length w.now }
    ensures { result ≡ short_of (word w.now k) }
{
    (w[k] % SHORT) as u32
}

#[tactic(auto, unfolding(wire::specs::Le::little))]
fn uuid_from(low: u64, high: u64) -> [u8; 16]
    ensures { result ≡ little 8 low ++ little 8 high }
{
    let mut uuid = [0u8; 16];
    wire::put_number(&mut uuid[..], 0, 8, low);
    wire::put_number(&mut uuid[..], 8, 8, high);
    uuid
}

fn volume_from(w: &[u64]) -> Volume
    requires { mount_length ≤ length w.now }
    ensures { result ≡ volume_from w.now }
{
    Volume {
        block: w[BLOCK],
        conventional: short_at(w, CONVENTIONAL),
        sequential: short_at(w, SEQUENTIAL),
        owner: short_at(w, OWNER),
        group: short_at(w, GROUP),
        mode: short_at(w, MODE),
        policy: codes::policy_from(w[POLICY]),
        explicit: w[EXPLICIT] != 0,
        uuid: uuid_from(w[UUID_LOW], w[UUID_HIGH]),
    }
}

fn account_from(x: &[u64]) -> Account
    requires { account_length ≤ length x.now }
    ensures { result ≡ account_from x.now }
{
    Account {
        opened: short_at(x, OPENED),
        active: short_at(x, ACTIVE),
        open_limit: short_at(x, OPEN_LIMIT),
        active_limit: short_at(x, ACTIVE_LIMIT),
    }
}

// The mount value that possible words hold.
#[tactic(auto, unfolding(crate::specs::Words::mount_from))]
pub fn mount_from(w: &[u64], x: &[u64]) -> Mount
    requires { (mount_length ≤ length w.now) × (account_length ≤ length x.now) }
    ensures { result ≡ mount_from w.now x.now }
{
    Mount {
        volume: volume_from(w),
        readonly: w[READONLY] != 0,
        account: account_from(x),
    }
}

// Eight bytes of the uuid as a number.
fn uuid_word(uuid: [u8; 16], at: usize) -> u64
    requires { at + 8 ≤ 16 }
    ensures { result ≡ le 8 uuid at }
{
    wire::u64_at(&uuid, at)
}

// Each word under its place's name, since the C interface fixes the places: an array in order would show less.
fn put_volume(w: &mut [u64], v: Volume)
    requires { mount_length ≤ length w.old }
    ensures { w.new ≡ sets w.old 0 (volume_words v) }
{
    w[BLOCK] = v.block;
    w[CONVENTIONAL] = v.conventional as u64;
    w[SEQUENTIAL] = v.sequential as u64;
    w[OWNER] = v.owner as u64;
    w[GROUP] = v.group as u64;
    w[MODE] = v.mode as u64;
    w[POLICY] = u64::from(v.policy);
    w[UUID_LOW] = uuid_word(v.uuid, 0);
    w[UUID_HIGH] = uuid_word(v.uuid, 8);
}

#[tactic(auto, unfolding(crate::specs::Words::with_state))]
fn put_mark(w: &mut [u64], m: Mount)
    requires { mount_length ≤ length w.old }
    ensures { w.new ≡ with_state w.old m }
{
    w[READONLY] = codes::flag_code(m.readonly);
}

#[tactic(auto, unfolding(crate::specs::Words::with_counts))]
fn put_counts(x: &mut [u64], account: Account)
    requires { account_length ≤ length x.old }
    ensures { x.new ≡ with_counts x.old account }
{
    x[OPENED] = account.opened as u64;
    x[ACTIVE] = account.active as u64;
}

// Puts the state of a mount value into its words, the mark and both counts; those of what the mount fixes stand as they were.
// It stays beside `put_all`: a call leaves the words of what the mount fixes (`with_state` of the specs).
pub fn put_state(w: &mut [u64], x: &mut [u64], m: Mount)
    requires { (mount_length ≤ length w.old) × (account_length ≤ length x.old) }
    ensures { (with_state w.old m ≡ w.new) × (with_counts x.old m.account ≡ x.new) }
{
    put_mark(w, m);
    put_counts(x, m.account);
}

// Puts a mount value into the words, whatever stands there.
pub fn put_mount(w: &mut [u64], m: Mount)
    requires { mount_length ≤ length w.old }
    ensures { w.new ≡ written w.old (mount_words m) }
{
    put_volume(w, m.volume);
    put_mark(w, m);
    w[EXPLICIT] = codes::flag_code(m.volume.explicit);
}

// Puts an account into the words, whatever stands there.
#[tactic(auto, unfolding(crate::specs::Words::with_counts, crate::specs::Words::account_words, answer_words::specs::Answers::written))]
pub fn put_account(x: &mut [u64], account: Account)
    requires { account_length ≤ length x.old }
    ensures { x.new ≡ written x.old (account_words account) }
{
    put_counts(x, account);
    x[OPEN_LIMIT] = account.open_limit as u64;
    x[ACTIVE_LIMIT] = account.active_limit as u64;
}

// Puts a mount value into the words, its account into its own, whatever stands there.
pub fn put_all(w: &mut [u64], x: &mut [u64], m: Mount)
    requires { (mount_length ≤ length w.old) × (account_length ≤ length x.old) }
    ensures { (written w.old (mount_words m) ≡ w.new) × (written x.old (account_words m.account) ≡ x.new) }
{
    put_mount(w, m);
    put_account(x, m.account);
}
