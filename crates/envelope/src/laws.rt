//! What holds of every envelope, as facts that a caller cites by a call.

ghost use Rattle.std.specs.Prelude.{◌≡◌, ℕ, ◌<◌, ◌≤◌, List, length, drop, slice_index, Ok};
ghost use Rattle.envelope.specs.declared.opening.Kind.{Kind};
ghost use Rattle.envelope.specs.Txn.{Txn, IsTxn};
ghost use Rattle.envelope.specs.Envelope.{Opened, IsTextOf, envelope_text, longest_payload, opened_at};
ghost use Rattle.envelope.specs.Opening.{envelope_of};

/// The text of an envelope with a payload of at most 32,768 bytes opens as that envelope.
pub fn envelope_reads_back()
    ensures { (place : ℕ × ℕ) (kind : Kind) (id : Txn) (payload : List ℕ) → IsTxn id → length payload ≤ longest_payload
        → envelope_of place (envelope_text kind id payload) ≡ Ok (opened_at place kind id payload) }
{}

/// Bytes that open as an envelope are the text of that envelope.
pub fn envelope_is_its_text()
    ensures { (place : ℕ × ℕ) (bytes : List ℕ) (e : Opened) → ((i : ℕ) → slice_index bytes i < 256)
        → envelope_of place bytes ≡ Ok e → IsTextOf place bytes e }
{}

/// The payload stands after the [`HEAD`](crate::HEAD) bytes of an envelope's head.
pub fn payload_is_behind_its_head()
    ensures { (kind : Kind) (id : Txn) (payload : List ℕ) → (drop 18 (envelope_text kind id payload) ≡ payload)
        × (18 ≤ length (envelope_text kind id payload)) }
{}
