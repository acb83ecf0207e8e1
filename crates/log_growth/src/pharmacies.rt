//! Pharmacies under old and new settings.

ghost use Rattle.std.specs.Prelude.{◌≡◌};
ghost use Rattle.log_growth.specs.Compared.{first_other, pharmacy_grows};

use pharmacy_journal::PharmacySettings;

/// The number of the first pharmacy that is gone or has not grown.
pub(crate) fn first_pharmacy(old: &[PharmacySettings], new: &[PharmacySettings]) -> Option<usize>
    ensures { result ≡ first_other pharmacy_grows 1 old.now new.now }
{
    for (place, one) in old.iter().enumerate() {
        let Some(other) = new.get(place) else {
            return Some(place + 1);
        };
        if !pharmacy_grows(one, other) {
            return Some(place + 1);
        }
    }
    None
}

/// Whether a pharmacy is the same, with as large a cap or a larger one.
fn pharmacy_grows(old: &PharmacySettings, new: &PharmacySettings) -> bool
    ensures { result ≡ pharmacy_grows old.now new.now }
{
    old.qualifier() == new.qualifier()
        && old.provider() == new.provider()
        && old.nodes() == new.nodes()
        && old.again() == new.again()
        && old.tries() == new.tries()
        && old.cap() <= new.cap()
}
