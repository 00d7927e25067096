// Masks of events.
ghost use Rattle.std.specs.Prelude.{◌≡◌, ◌^◌, ◌<◌, true, if◌then◌else◌, nat_lt};
ghost use Rattle.plants.specs.Masks.{bit, width};

use crate::plant::{EVENTS, Event, Mask};

// Whether an event belongs to a mask, for any number as event.
pub fn contains(mask: Mask, event: Event) -> bool
    ensures value { result ≡ bit mask event }
    ensures event { result ≡ true → event < width }
{
    event < EVENTS && bit_at(mask, event)
}

fn bit_at(mask: Mask, event: Event) -> bool
    requires { event < width }
    ensures { result ≡ bit mask event }
{
    (mask >> event) % 2 == 1
}

// The mask of one event; empty for a number that is no event.
pub fn singleton(event: Event) -> Mask
    ensures { result ≡ (if nat_lt event width then 2 ^ event else 0) }
{
    if event < EVENTS { 1 << event } else { 0 }
}

// Whether a mask has no bit at or above an event count, for any number as count.
pub fn is_below(mask: Mask, events: u8) -> bool
    ensures { result ≡ nat_lt mask (2 ^ events) }
{
    events >= EVENTS || mask < 1 << events
}
