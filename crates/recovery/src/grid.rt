// The recovery table: what a failure makes of a file's size and access, by mount option and condition.
ghost use Rattle.std.specs.Prelude.{◌≡◌};
ghost use Rattle.recovery.specs.Grid.{recovery_grid, rule_of};

use types::{Condition, ErrorPolicy};

#[derive(Clone, Copy)]
pub enum SizeRule {
    Fixed,
    AsIs,
    Zero,
}

#[derive(Clone, Copy)]
pub enum AccessRule {
    Unchanged,
    Read,
    Nothing,
}

// An element of the table.
#[derive(Clone, Copy)]
pub struct Rule {
    pub size: SizeRule,
    pub access: AccessRule,
}

const FIXED: Rule = Rule {
    size: SizeRule::Fixed,
    access: AccessRule::Unchanged,
};

const FIXED_READ: Rule = Rule {
    size: SizeRule::Fixed,
    access: AccessRule::Read,
};

const AS_IS_READ: Rule = Rule {
    size: SizeRule::AsIs,
    access: AccessRule::Read,
};

const GONE: Rule = Rule {
    size: SizeRule::Zero,
    access: AccessRule::Nothing,
};

// Option by condition, in the order of their codes.
pub fn recovery_grid() -> [[Rule; 3]; 4]
    ensures { result ≡ recovery_grid }
{
    [
        [FIXED, AS_IS_READ, GONE],
        [FIXED_READ, AS_IS_READ, GONE],
        [GONE, GONE, GONE],
        [FIXED, AS_IS_READ, GONE],
    ]
}

// By their codes: the definitions `recovery_grid` and `rule_of` of the specs, which may not change, take the table as a value by them.
pub fn rule_of(grid: [[Rule; 3]; 4], policy: ErrorPolicy, condition: Condition) -> Rule
    ensures { result ≡ rule_of grid policy condition }
{
    let row = grid[u64::from(policy) as usize];
    row[u64::from(condition) as usize]
}
