//! Texts of a bounded length that lie in the value itself.

ghost use Rattle.std.specs.Prelude.{◌≡◌, ◌≤◌, ◌↔◌, length, IsSome, IfSome};

use std::marker::Model;

/// A text of at most `N` bytes. It takes no memory.
#[derive(Clone, Copy, PartialEq, Eq)]
pub struct Text<const N: usize> {
    bytes: [u8; N],
    len: usize,
}

// Clauses see the bytes of the text. The room after them is filled with zeros.
impl<const N: usize> Model for Text<N> {
    ghost use Rattle.std.specs.Prelude.{◌≡◌, ℕ, ◌≤◌, List, ◌++◌, length, take, drop};
    ghost use Rattle.claim_profile.specs.Text.{filler};
    ghost use Rattle.std.proofs.Common.{arith, ap, ◌∙◌, sym, take-append-drop, length-take-le};

    ghost Value = { List ℕ };

    ghost view = { λ t. take t.len t.bytes };

    ghost invariant = { λ t. (t.len ≤ N) × (length t.bytes ≡ N)
        × (drop t.len t.bytes ≡ filler N (take t.len t.bytes)) };

    ghost inverse = { λ v. record { bytes = v ++ filler N v; len = length v } };

    ghost inverse_ok = { λ t h i. record {
      bytes = (ap (λ (rest : List ℕ). take t.len t.bytes ++ rest) (sym h.2) ∙ take-append-drop t.len t.bytes) i;
      len = length-take-le t.len t.bytes (omega (arith, h.0, h.1)) i;
    } };
}

impl<const N: usize> Text<N> {
    /// The text of these bytes, where they fit.
    pub fn new(bytes: &[u8]) -> Option<Text<N>>
        ensures variant { IsSome result ↔ (length bytes.now ≤ N) }
        ensures given { IfSome result (λ t. t ≡ bytes.now) }
    {
        if bytes.len() > N {
            return None;
        }
        let mut room = [0; N];
        room[..bytes.len()].copy_from_slice(bytes);
        Some(Text {
            bytes: room,
            len: bytes.len(),
        })
    }

    /// The bytes of the text.
    pub fn as_slice(&self) -> &[u8]
        ensures bytes { result.now ≡ self.now }
        ensures fits { length result.now ≤ N }
    {
        &self.bytes[..self.len]
    }
}
