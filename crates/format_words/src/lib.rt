// Formatting, and the values of a super block, for a caller in C: answers as numbers, with their values in words that the caller lends. Memory of
// another length than is asked for answers 10, and nothing is written.
#![tactic(auto)]

ghost use Rattle.std.specs.Prelude.{◌≡◌, true, ◌≤◌, length};
ghost use Rattle.superblock.specs.SuperBlock.{label_length, uuid_length};
ghost use Rattle.answer_words.specs.Answers.{answer_length};
ghost use Rattle.format_words.specs.Words.{formattable, format_words, readable, told_read, fields_words};

use format::SuperFields;
use superblock::{LABEL_BYTES, UUID_BYTES};
use types::Refusal;

#[tactic(auto, unfolding(crate::specs::Words::formattable))]
fn is_formattable(uuid: usize, room: usize) -> bool
    ensures value { result ≡ formattable uuid room }
    ensures uuid_value { result ≡ true → (uuid ≡ uuid_length) × (answer_length ≤ room) }
{
    (uuid == UUID_BYTES) & (answer_words::ANSWER_WORDS <= room)
}

// The sixteen bytes that are lent, by value.
fn uuid_of(b: &[u8]) -> [u8; UUID_BYTES]
    requires { length b.now ≡ uuid_length }
    ensures { result ≡ b.now }
{
    let mut uuid = [0u8; UUID_BYTES];
    uuid.copy_from_slice(b);
    uuid
}

// Formats, with the answer's words.
#[tactic(auto, unfolding(crate::specs::Words::format_words, answer_words::specs::Answers::answer_words))]
pub fn format(
    block: u64,
    out: &mut [u8],
    label: &[u8],
    uuid: &[u8],
    features: u64,
    owner: u32,
    group: u32,
    mode: u32,
    zone: &[u8],
    given: bool,
    a: &mut [u64],
) -> u64
    ensures { format_words block out.old (record { label = label.entry.now; uuid = uuid.now; features = features; owner = owner; group = group; mode = mode }) given zone.now a.old ≡ record { number = result; block = out.new; answer = a.new } }
{
    if !is_formattable(uuid.len(), a.len()) {
        return types::answers::refusal_number(Refusal::Impossible);
    }
    let x = format::format(
        block,
        out,
        label,
        uuid_of(uuid),
        features,
        owner,
        group,
        mode,
        zone,
        given,
    );
    answer_words::put_values(a, answer_words::format_values(x));
    types::answers::number_of(x)
}

#[tactic(auto, unfolding(crate::specs::Words::readable))]
fn is_readable(label: usize, uuid: usize, room: usize) -> bool
    ensures value { result ≡ readable label uuid room }
    ensures label_value { result ≡ true → (label ≡ label_length) × (uuid ≡ uuid_length) × (answer_length ≤ room) }
{
    (label == LABEL_BYTES) & (uuid == UUID_BYTES) & (answer_words::ANSWER_WORDS <= room)
}

// Puts what was read into the memory for it, and gives the answer's number.
#[tactic(auto, unfolding(answer_words::specs::Answers::answer_words))]
fn tell_read(
    read: Result<SuperFields, Refusal>,
    label: &mut [u8],
    uuid: &mut [u8],
    a: &mut [u64],
) -> u64
    requires { (length label.old ≡ label_length) × (length uuid.old ≡ uuid_length) × (answer_length ≤ length a.old) }
    ensures { told_read read label.old uuid.old a.old ≡ record { number = result; label = label.new; uuid = uuid.new; answer = a.new } }
{
    match read {
        Err(x) => {
            answer_words::put_values(a, answer_words::refusal_values(x));
            types::answers::refusal_number(x)
        }
        Ok(fields) => {
            label.copy_from_slice(&fields.label);
            uuid.copy_from_slice(&fields.uuid);
            let numbers = [
                fields.features,
                fields.owner as u64,
                fields.group as u64,
                fields.mode as u64,
            ];
            answer_words::put_values(a, answer_words::of_values(numbers));
            0
        }
    }
}

// Reads the values of a super block into the memory for them, with the answer's words.
#[tactic(auto, unfolding(crate::specs::Words::fields_words))]
pub fn super_fields(b: &[u8], label: &mut [u8], uuid: &mut [u8], a: &mut [u64]) -> u64
    ensures { fields_words b.now label.old uuid.old a.old ≡ record { number = result; label = label.new; uuid = uuid.new; answer = a.new } }
{
    if !is_readable(label.len(), uuid.len(), a.len()) {
        return types::answers::refusal_number(Refusal::Impossible);
    }
    tell_read(format::read_fields(b), label, uuid, a)
}
