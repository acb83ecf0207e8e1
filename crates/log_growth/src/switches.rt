//! Switches under old and new settings.

ghost use Rattle.std.specs.Prelude.{◌≡◌, ◌==◌, ℕ};
ghost use Rattle.log_growth.specs.Compared.{first_other};

use switch_node::SwitchSettings;

/// The number of the first switch that is gone or has another cap.
pub(crate) fn first_switch(old: &[SwitchSettings], new: &[SwitchSettings]) -> Option<usize>
    ensures { result ≡ first_other (λ (a b : ℕ). a == b) 1 old.now new.now }
{
    for (place, one) in old.iter().enumerate() {
        let Some(other) = new.get(place) else {
            return Some(place + 1);
        };
        if one.cap() != other.cap() {
            return Some(place + 1);
        }
    }
    None
}
