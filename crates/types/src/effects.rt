// What a call or a completion does where it stores nothing.
ghost use Rattle.std.specs.Prelude.{◌≡◌};
ghost use Rattle.types.specs.Effects.{answering, refusing};

use crate::{Effect, Granted, Mount, Outcome, Refusal};

pub fn answering(answer: Result<Granted, Refusal>, m: Mount) -> Effect
    ensures { result ≡ answering answer m }
{
    Effect {
        outcome: Outcome { answer, mount: m },
        store: None,
    }
}

pub fn refusing(m: Mount, x: Refusal) -> Effect
    ensures { result ≡ refusing m x }
{
    answering(Err(x), m)
}
