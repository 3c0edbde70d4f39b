// An answer in words: how many values, and six words with the values in front and zeros after them.
#![tactic(auto)]

ghost use Rattle.std.specs.Prelude.{◌≡◌, ◌≤◌, length};
ghost use Rattle.types.specs.Numbers.{number_of, listed, refusal_values, answer_values, mount_values, find_values, show_values, format_values};
ghost use Rattle.answer_words.specs.Answers.{answer_length, most_values, values_of, value_words, written};

use types::{FileKind, Granted, Refusal, Row, Values};

// The words of an answer.
pub const ANSWER_WORDS: usize = 7;

// The most values of an answer.
const MOST_VALUES: usize = 6;

// What goes into the words of an answer: how many values, and these with zeros after them.
#[derive(Clone, Copy)]
pub struct AnswerWords {
    pub count: u64,
    pub values: [u64; MOST_VALUES],
}

// An answer of as many values as are given.
pub fn of_values<const N: usize>(given: [u64; N]) -> AnswerWords
    requires { N ≤ most_values }
    ensures { result ≡ values_of given.entry }
{
    let mut values = [0u64; MOST_VALUES];
    values[..N].copy_from_slice(&given);
    AnswerWords {
        count: N as u64,
        values,
    }
}

fn listed(v: Values) -> AnswerWords
    ensures { result ≡ values_of (listed v) }
{
    match v {
        Values::Nothing => of_values([]),
        Values::One(a) => of_values([a]),
        Values::Two(a, b) => of_values([a, b]),
    }
}

pub fn refusal_values(x: Refusal) -> AnswerWords
    ensures { result ≡ values_of (refusal_values x) }
{
    listed(types::answers::refusal_code(x).values)
}

pub fn answer_values(a: Result<Granted, Refusal>) -> AnswerWords
    ensures { result ≡ values_of (answer_values a) }
{
    match a {
        Err(x) => refusal_values(x),
        Ok(Granted::Done(count)) => of_values([count]),
        Ok(Granted::Issue(command)) => {
            of_values([u64::from(command.kind), command.address, command.length])
        }
    }
}

pub fn mount_values(a: Result<(u32, u32), Refusal>) -> AnswerWords
    ensures { result ≡ values_of (mount_values a) }
{
    match a {
        Err(x) => refusal_values(x),
        Ok((cnv, seq)) => of_values([cnv as u64, seq as u64]),
    }
}

pub fn find_values(a: Result<(FileKind, u32), Refusal>) -> AnswerWords
    ensures { result ≡ values_of (find_values a) }
{
    match a {
        Err(x) => refusal_values(x),
        Ok((kind, number)) => of_values([u64::from(kind), number as u64]),
    }
}

pub fn show_values(a: Result<(Row, u32), Refusal>) -> AnswerWords
    ensures { result ≡ values_of (show_values a) }
{
    match a {
        Err(x) => refusal_values(x),
        Ok((row, mode)) => of_values([
            row.start,
            row.capacity,
            row.size,
            u64::from(row.condition),
            u64::from(row.access),
            mode as u64,
        ]),
    }
}

pub fn format_values(a: Result<bool, Refusal>) -> AnswerWords
    ensures { result ≡ values_of (format_values a) }
{
    match a {
        Err(x) => refusal_values(x),
        Ok(finish) => of_values([types::codes::flag_code(finish)]),
    }
}

// Puts an answer's values into its words.
#[tactic(auto, unfolding(crate::specs::Answers::written))]
pub fn put_values(out: &mut [u64], v: AnswerWords)
    requires { answer_length ≤ length out.old }
    ensures { out.new ≡ written out.old (value_words v) }
{
    out[0] = v.count;
    out[1..ANSWER_WORDS].copy_from_slice(&v.values);
}

// Puts an answer's values into its words, and gives the answer's number.
pub fn tell<T: Drop>(out: &mut [u64], a: Result<T, Refusal>, v: AnswerWords) -> u64
    requires { answer_length ≤ length out.old }
    ensures { (number_of a ≡ result) × (written out.old (value_words v) ≡ out.new) }
{
    put_values(out, v);
    types::answers::number_of(a)
}
