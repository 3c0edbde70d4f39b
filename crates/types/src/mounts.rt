// The empty mount value, and what calls and completions change of a mount value.
ghost use Rattle.std.specs.Prelude.{◌≡◌};
ghost use Rattle.types.specs.Mounts.{empty_mount, read_only, with_account};

use crate::{Account, ErrorPolicy, Mount, Volume};

// What a refused mount hands out.
pub fn empty_mount() -> Mount
    ensures { result ≡ empty_mount }
{
    let volume = Volume {
        block: 0,
        conventional: 0,
        sequential: 0,
        owner: 0,
        group: 0,
        mode: 0,
        policy: ErrorPolicy::RemountRo,
        explicit: false,
        uuid: [0; 16],
    };
    let account = Account {
        opened: 0,
        active: 0,
        open_limit: 0,
        active_limit: 0,
    };
    Mount {
        volume,
        readonly: false,
        account,
    }
}

// The mount marked read-only.
pub fn made_readonly(m: Mount) -> Mount
    ensures { result ≡ read_only m }
{
    Mount {
        readonly: true,
        ..m
    }
}

// The mount with another account.
pub fn with_account(m: Mount, account: Account) -> Mount
    ensures { result ≡ with_account m account }
{
    Mount { account, ..m }
}
