// What each answer is in numbers; and a chain of checks, of which the first that fails decides.
ghost use Rattle.std.specs.Prelude.{◌≡◌};
ghost use Rattle.types.specs.Numbers.{plain, with_value, with_two, refusal_code, refusal_number, number_of};
ghost use Rattle.types.specs.Verdicts.{refuse, and_then};

use crate::codes::fault_code;
use crate::{Refusal, RefusalCode, Values};

// One check of a chain: its refusal where it fails. `?` goes on to the next where it doesn't.
pub fn refuse_if(fails: bool, x: Refusal) -> Result<(), Refusal>
    ensures { result ≡ refuse fails x (Ok tt) }
{
    if fails { Err(x) } else { Ok(()) }
}

// One check before what the rest finds: its refusal where it fails, else that.
#[tactic(auto, unfolding(crate::specs::Verdicts::refuse))]
pub fn refuse(fails: bool, x: Refusal, rest: Result<(), Refusal>) -> Result<(), Refusal>
    ensures { result ≡ refuse fails x rest }
{
    refuse_if(fails, x)?;
    rest
}

// Checks that have been made: what they refuse, else what the rest finds.
#[tactic(auto, unfolding(crate::specs::Verdicts::and_then))]
pub fn and_then(found: Result<(), Refusal>, rest: Result<(), Refusal>) -> Result<(), Refusal>
    ensures { result ≡ and_then found rest }
{
    found?;
    rest
}

// These three stay: the definitions have the same, and the table of refusals below reads as the papers' by them.
fn plain(number: u64) -> RefusalCode
    ensures { result ≡ plain number }
{
    RefusalCode {
        number,
        values: Values::Nothing,
    }
}

fn with_value(number: u64, value: u64) -> RefusalCode
    ensures { result ≡ with_value number value }
{
    RefusalCode {
        number,
        values: Values::One(value),
    }
}

fn with_two(number: u64, first: u64, second: u64) -> RefusalCode
    ensures { result ≡ with_two number first second }
{
    RefusalCode {
        number,
        values: Values::Two(first, second),
    }
}

// The number of a refusal, and its values.
// The numbers stay here alone: this is the papers' table (`refusal_code` of the specs).
pub fn refusal_code(x: Refusal) -> RefusalCode
    ensures { result ≡ refusal_code x }
{
    match x {
        Refusal::NoFile => plain(1),
        Refusal::Busy => plain(2),
        Refusal::ReadOnlyMount => plain(3),
        Refusal::Denied => plain(4),
        Refusal::BeyondCapacity => plain(5),
        Refusal::Misplaced => plain(6),
        Refusal::Failed(size) => with_value(7, size),
        Refusal::NothingOutstanding => plain(8),
        Refusal::BadRecord(fault) => with_value(9, fault_code(fault)),
        Refusal::Impossible => plain(10),
        Refusal::BadBlock => plain(20),
        Refusal::SuperLength => plain(21),
        Refusal::SuperMagic => plain(22),
        Refusal::SuperChecksum => plain(23),
        Refusal::SuperFeatures => plain(24),
        Refusal::SuperOwner => plain(25),
        Refusal::SuperTail => plain(26),
        Refusal::BadOptions => plain(27),
        Refusal::BadReport => plain(28),
        Refusal::BadZone(zone, fault) => with_two(29, zone as u64, fault_code(fault)),
        Refusal::TooFewRows => plain(30),
        Refusal::SuperPerm => plain(33),
        Refusal::LabelLength => plain(34),
        Refusal::OpenLimit => plain(11),
        Refusal::ActiveLimit => plain(12),
        Refusal::NotOpen => plain(13),
        Refusal::TooManyOpens => plain(14),
    }
}

pub fn refusal_number(x: Refusal) -> u64
    ensures { result ≡ refusal_number x }
{
    refusal_code(x).number
}

// The number of any answer: its refusal's, or 0.
pub fn number_of<T: Drop>(a: Result<T, Refusal>) -> u64
    ensures { result ≡ number_of a }
{
    match a {
        Ok(_) => 0,
        Err(x) => refusal_number(x),
    }
}
