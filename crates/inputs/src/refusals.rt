// What is refused before anything is done: a disc, too few frames, or events.
ghost use Rattle.std.specs.Prelude.{◌≡◌, IfOk, None, Ok};
ghost use Rattle.std.specs.Result.{result_err};
ghost use Rattle.turns.specs.declared.vocabulary.Sizes.{Sizes as Size};
ghost use Rattle.disc.specs.Check.{TakenBytes, Enough};
ghost use Rattle.inputs.specs.Events.{refusal_of, WrittenOut};
ghost use Rattle.inputs.specs.Refusals.{first_refusal};

use crate::events::refused;
use disc::check::{Refusal, check};
use turns::vocabulary::Sizes;

// The sizes of a disc that is taken, with enough bytes lent for frames and events that are well-formed; else the first refusal. Nothing is changed.
pub fn check_all(disc: &[u8], lent: usize, events: &[u8]) -> Result<Sizes, Refusal>
    ensures value { first_refusal disc.now lent events.now ≡ result_err result }
    ensures taken { IfOk result (λ z. TakenBytes z disc.now × Enough z lent × WrittenOut events.now) }
    ensures only { (z : Size) → TakenBytes z disc.now → Enough z lent → refusal_of events.now ≡ None → result ≡ Ok z }
{
    let sizes = check(disc, lent)?;
    match refused(events) {
        None => Ok(sizes),
        Some(place) => Err(Refusal::Event(place)),
    }
}
