// Tests of a kind, a condition, an access, and of what is outstanding.
ghost use Rattle.std.specs.Prelude.{◌≡◌};
ghost use Rattle.types.specs.Predicates.{is_conventional, is_healthy, is_read_only, is_offline, is_none, is_write, is_busy};

use crate::{Access, Condition, FileKind, Outstanding};

pub fn is_conventional(k: FileKind) -> bool
    ensures { result ≡ is_conventional k }
{
    k == FileKind::Conventional
}

pub fn is_healthy(c: Condition) -> bool
    ensures { result ≡ is_healthy c }
{
    c == Condition::Healthy
}

pub fn is_readonly(c: Condition) -> bool
    ensures { result ≡ is_read_only c }
{
    c == Condition::ReadOnly
}

pub fn is_offline(c: Condition) -> bool
    ensures { result ≡ is_offline c }
{
    c == Condition::Offline
}

pub fn is_none(a: Access) -> bool
    ensures { result ≡ is_none a }
{
    a == Access::Nothing
}

pub fn is_write(a: Access) -> bool
    ensures { result ≡ is_write a }
{
    a == Access::Write
}

// A command is outstanding.
pub fn is_busy(o: Outstanding) -> bool
    ensures { result ≡ is_busy o }
{
    !matches!(o, Outstanding::Idle)
}
