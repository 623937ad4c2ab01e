// The plain houses, the house that runs, and what they promise.
#![tactic(auto)]

ghost use Rattle.house.specs.Entry.{event_of, StepSays, step_fits, tell_fits, TellSays};
ghost use Rattle.pages.specs.Bytes.{from_bytes};
ghost use Rattle.pages.specs.Told.{event_meant};
ghost use Rattle.std.specs.Prelude.{◌≡◌, ◌<◌, ◌≤◌, take, drop, MatchOption};

pub mod control;
mod desk;
pub mod laws;
pub mod promise;
mod spelling;

use control::Control;
use pages::bytes::number;
use pages::told::{Event, Told};

// The number in eight bytes from a place on.
fn number_at(bytes: &[u8], at: usize) -> u64
    ensures { result ≡ from_bytes 0 (take 8 (drop at bytes.now)) }
{
    number(bytes.get(at..).unwrap_or(&[]))
}

// What the world tells, by its kind.
fn event_of<'a>(kind: u64, bytes: &'a [u8]) -> Option<Event<'a>>
    ensures { MatchOption result (5 < kind) (λ e. (kind ≤ 5) × (event_meant e ≡ event_of kind bytes.now)) }
{
    match kind {
        0 => Some(Event::On {
            house: number_at(bytes, 0),
            houses: number_at(bytes, 8),
            pages: number_at(bytes, 16),
        }),
        1 => Some(Event::Said(bytes)),
        2 => Some(Event::Page(bytes)),
        3 => Some(Event::Next),
        4 => Some(Event::Heard(bytes)),
        5 => Some(Event::Lost),
        _ => None,
    }
}

// One step of the house: what the world tells is taken in, and one act is told. Memory has 262,144 numbers, all 0 when power comes; the lent row has
// 131,072 bytes or more.
pub fn tell(memory: &mut [u64], event: Event, out: &mut [u8]) -> Told
    ensures { TellSays memory.old (event_meant event.entry) out.old (tell_fits memory.old out.old) result memory.new out.new }
{
    pages::cells::step::<Control>(memory, event, out)
}

// The same step for a world that tells numbers: a kind, and some bytes.
// As it stands: a number for the kind, since this is the step as the promise defines it; `tell` takes the event.
pub fn step(memory: &mut [u64], kind: u64, bytes: &[u8], out: &mut [u8]) -> Told
    ensures { StepSays memory.old kind bytes.now out.old (step_fits memory.old kind bytes.now out.old) result memory.new out.new }
{
    let Some(event) = event_of(kind, bytes) else {
        return Told::No(0);
    };
    tell(memory, event, out)
}
