//! What a fill is hashed by: one write, which costs half of what a write for each field does.

ghost use Rattle.std.specs.Prelude.{◌≡◌, ◌+◌, ◌≤◌, [], ◌∷◌, ◌++◌, length, take};
ghost use Rattle.std.specs.Cmp.Rules.{hashing};
ghost use Rattle.std.proofs.Common.{rules};
ghost use Rattle.claim_profile.specs.FillBytes.{fill_bytes};

use crate::order::Fill;
use std::hash::{Hash, Hasher};

impl Hash for Fill {
    ghost hash_input = { λ fill. fill_bytes fill ∷ [] };

    ghost respects_eq = { Prim.search (hashing, rules) };

    /// Hashes the fields of the fill together.
    fn hash<H: Hasher>(&self, state: &mut H) {
        state.write(&self.bytes());
    }
}

impl Fill {
    /// The fields one after another. The toolchain's fast hasher multiplies by every second eight bytes, xor a constant:
    /// were they that constant, the product would be 0, and nothing of a map's keys be left in the hash. So each such
    /// eight have a byte that cannot be the constant's: a digit of the BIN, the fill number, the prescription number's
    /// last byte, which is 0.
    fn bytes(&self) -> [u8; 42]
        ensures { result ≡ fill_bytes self.now }
    {
        let mut bytes = [0; 42];
        let place = put(&mut bytes, 0, &self.pcn);
        let place = put(&mut bytes, place, &self.bin);
        let place = put(&mut bytes, place, &self.provider);
        let place = put(&mut bytes, place, &[self.fill]);
        let place = put(&mut bytes, place, &self.qualifier);
        let _end = put(&mut bytes, place, &self.prescription.to_le_bytes());
        bytes
    }
}

/// Writes a field at `place`, and answers the place after it.
#[inline(always)]
fn put(bytes: &mut [u8], place: usize, field: &[u8]) -> usize
    requires { place + length field.now ≤ length bytes.old }
    ensures end { result ≡ place + length field.now }
    ensures front { take (place + length field.now) bytes.new ≡ take place bytes.old ++ field.now }
{
    let end = place + field.len();
    bytes[place..end].copy_from_slice(field);
    end
}
