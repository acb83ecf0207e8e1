//! Whether events are the same.

ghost use Rattle.std.specs.Prelude.{◌≡◌, IsTrue};

use world_setup::{Event, Node};

/// Whether two lists have the same events in the same order.
pub(super) fn are_same(events: &[Event], others: &[Event]) -> bool
    ensures { IsTrue result → events.now ≡ others.now }
{
    if events.len() != others.len() {
        return false;
    }
    for (place, event) in events.iter().enumerate() {
        if !is_same(event, &others[place]) {
            return false;
        }
    }
    true
}

/// Whether two events are the same.
fn is_same(event: &Event, other: &Event) -> bool
    ensures { IsTrue result → event.now ≡ other.now }
{
    *event == *other
}
