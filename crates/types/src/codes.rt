// The number that stands for each kind, condition, access, policy and command, and back; and that of a zone's fault.
ghost use Rattle.std.specs.Prelude.{◌≡◌, ◌<◌};
ghost use Rattle.types.specs.Codes.{flag_code, kind_code, kind_from, is_kind, condition_code, access_code, policy_code, policy_from, command_code, command_from, fault_code};

use crate::{Access, CommandKind, Condition, ErrorPolicy, FileKind, ZoneFault};

// How many numbers stand for a kind, for a policy and for a command.
pub const KINDS: u64 = 2;

pub const POLICIES: u64 = 4;

pub const COMMANDS: u64 = 7;

// 1 for yes, 0 for no.
pub fn flag_code(yes: bool) -> u64
    ensures { result ≡ flag_code yes }
{
    if yes { 1 } else { 0 }
}

impl From<FileKind> for u64 {
    ghost from_gives = { λ k n. n ≡ kind_code k };

    fn from(k: FileKind) -> u64 {
        match k {
            FileKind::Conventional => 0,
            FileKind::Sequential => 1,
        }
    }
}

// The number is that of a kind.
pub fn is_kind(code: u64) -> bool
    ensures { result ≡ is_kind code }
{
    code < KINDS
}

// The kind of a code.
// It stays beside `From`: any number has a kind here, as `kind_from` of the specs says, and a `TryFrom` would give none above 1.
pub fn kind_from(code: u64) -> FileKind
    ensures { result ≡ kind_from code }
{
    if code == 0 {
        FileKind::Conventional
    } else {
        FileKind::Sequential
    }
}

impl From<Condition> for u64 {
    ghost from_gives = { λ c n. (n ≡ condition_code c) × (n < 3) };

    fn from(c: Condition) -> u64 {
        match c {
            Condition::Healthy => 0,
            Condition::ReadOnly => 1,
            Condition::Offline => 2,
        }
    }
}

impl From<Access> for u64 {
    ghost from_gives = { λ a n. n ≡ access_code a };

    fn from(a: Access) -> u64 {
        match a {
            Access::Nothing => 0,
            Access::Read => 1,
            Access::Write => 2,
        }
    }
}

impl From<ErrorPolicy> for u64 {
    ghost from_gives = { λ p n. (n ≡ policy_code p) × (n < 4) };

    fn from(p: ErrorPolicy) -> u64 {
        match p {
            ErrorPolicy::RemountRo => 0,
            ErrorPolicy::ZoneRo => 1,
            ErrorPolicy::ZoneOffline => 2,
            ErrorPolicy::Repair => 3,
        }
    }
}

// The policy of a code.
// It stays for any number, as `policy_from` of the specs says of those that are none's.
pub fn policy_from(code: u64) -> ErrorPolicy
    ensures { result ≡ policy_from code }
{
    match code {
        0 => ErrorPolicy::RemountRo,
        1 => ErrorPolicy::ZoneRo,
        2 => ErrorPolicy::ZoneOffline,
        _ => ErrorPolicy::Repair,
    }
}

impl From<CommandKind> for u64 {
    ghost from_gives = { λ k n. n ≡ command_code k };

    fn from(k: CommandKind) -> u64 {
        match k {
            CommandKind::Read => 0,
            CommandKind::Write => 1,
            CommandKind::Reset => 2,
            CommandKind::Finish => 3,
            CommandKind::Flush => 4,
            CommandKind::Open => 5,
            CommandKind::Close => 6,
        }
    }
}

// The command of a code.
// It stays for any number, as `command_from` of the specs says of those that are none's.
pub fn command_from(code: u64) -> CommandKind
    ensures { result ≡ command_from code }
{
    match code {
        0 => CommandKind::Read,
        1 => CommandKind::Write,
        2 => CommandKind::Reset,
        3 => CommandKind::Finish,
        4 => CommandKind::Flush,
        5 => CommandKind::Open,
        _ => CommandKind::Close,
    }
}

// The number of a zone's fault: 0 for none, else its place in the order of the tests.
// No `From`: it stays a function, since no fault has a number, too.
pub fn fault_code(fault: Option<ZoneFault>) -> u64
    ensures { result ≡ fault_code fault }
{
    match fault {
        None => 0,
        Some(ZoneFault::Start) => 1,
        Some(ZoneFault::Length) => 2,
        Some(ZoneFault::Capacity) => 3,
        Some(ZoneFault::End) => 4,
        Some(ZoneFault::Type) => 5,
        Some(ZoneFault::Condition) => 6,
        Some(ZoneFault::Pointer) => 7,
        Some(ZoneFault::OtherZone) => 8,
        Some(ZoneFault::BetterCondition) => 9,
    }
}
