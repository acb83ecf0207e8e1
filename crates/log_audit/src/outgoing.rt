//! A text that goes out piece by piece.

pub(crate) mod writer_sink;

ghost use Rattle.std.specs.Prelude.{◌≡◌, ◌++◌, [], ◌∷◌, ◌<◌, ◌-◌, codes, length, take, drop, IfOk, OnOk};
ghost use Rattle.log_audit.specs.Commas.{ends_in_comma, without_comma};

use std::alloc::{AllocError, Global};
use std::marker::Model;

/// How many bytes are gathered before they go out (own): 64 KiB.
const BLOCK: usize = 65_536;

/// Where the pieces of a text go, one after another.
pub trait TextSink {
    ghost use Rattle.std.specs.Prelude.{ℕ, List};

    /// All that it was handed, joined.
    ghost handed: { Self → List ℕ };

    /// Takes the next piece.
    ///
    /// # Errors
    /// Where memory was refused.
    fn take(&mut self, piece: &[u8]) -> Result<(), AllocError>
        ensures { OnOk result (handed self.new ≡ handed self.old ++ piece.now) };
}

impl TextSink for Vec<u8> {
    ghost handed = { λ text. text.items };

    fn take(&mut self, piece: &[u8]) -> Result<(), AllocError> {
        self.extend_from_slice(piece)
    }
}

/// A text on its way to a sink. In clauses it is all that was put into it, whether it went out already or not.
#[derive(Drop)]
pub struct Outgoing<K: TextSink + Drop> {
    sink: K,
    text: Vec<u8>,
}

impl<K: TextSink + Drop> Model for Outgoing<K> {
    ghost use Rattle.std.specs.Prelude.{◌≡◌, ◌++◌, ℕ, List, []};

    ghost Value = { List ℕ };

    ghost view = { λ out. K.handed out.sink ++ out.text.items };

    // The last byte that was put never went out yet, so that it can be taken back.
    ghost invariant = { λ out. out.text.items ≡ [] → K.handed out.sink ≡ [] };
}

impl<K: TextSink + Drop> Outgoing<K> {
    /// A text of which nothing is there yet, over a sink that was handed nothing.
    pub fn new(alloc: Global, sink: K) -> Outgoing<K>
        requires { K.handed sink ≡ [] }
        ensures { result ≡ [] }
    {
        Outgoing {
            sink,
            text: Vec::new(alloc),
        }
    }

    /// An empty piece to be filled and put.
    pub(crate) fn piece(&self) -> Vec<u8>
        ensures { result.items ≡ [] }
    {
        Vec::new(*self.text.allocator())
    }

    /// Puts the next bytes. All that is gathered but the last byte goes out where it is a block.
    pub(crate) fn put(&mut self, bytes: &[u8]) -> Result<(), AllocError>
        ensures { OnOk result (self.new ≡ self.old ++ bytes.now) }
    {
        self.text.extend_from_slice(bytes)?;
        if self.text.len() > BLOCK {
            pass_front(&mut self.sink, &mut self.text)
        } else {
            Ok(())
        }
    }

    /// Puts the bytes of a text that was made whole.
    pub(crate) fn put_text(&mut self, text: &[u8]) -> Result<(), AllocError>
        ensures { OnOk result (self.new ≡ self.old ++ text.now) }
    {
        let mut left = text;
        while left.len() > BLOCK {
            let (block, others) = left.split_at(BLOCK);
            self.put(block)?;
            left = others;
        }
        self.put(left)
    }

    /// Ends a list of JSON: the comma after its last row goes.
    #[tactic(auto, using(std::proofs::lemmas::Result::on_ok_weaker, crate::proofs::Commas::ended))]
    pub(crate) fn end_list(&mut self) -> Result<(), AllocError>
        ensures { OnOk result (self.new ≡ without_comma self.old ++ codes "\n]") }
    {
        end_list_in(&mut self.text)
    }

    /// Hands on what is left, and gives the sink.
    ///
    /// # Errors
    /// Where memory was refused.
    pub fn finish(self) -> Result<K, AllocError>
        ensures { IfOk result (λ sink. K.handed sink ≡ self) }
    {
        let Outgoing { mut sink, text } = self;
        sink.take(text.as_slice())?;
        Ok(sink)
    }
}

/// Hands on all of a text but its last byte.
fn pass_front<K: TextSink>(sink: &mut K, text: &mut Vec<u8>) -> Result<(), AllocError>
    requires { 0 < length text.old.items }
    ensures same { OnOk result (K.handed sink.new ++ text.new.items ≡ K.handed sink.old ++ text.old.items) }
    ensures some { 0 < length text.new.items }
{
    let last = text.len() - 1;
    sink.take(&text.as_slice()[..last])?;
    keep_last(text.as_mut_slice());
    text.truncate(1);
    Ok(())
}

/// Puts the last byte first.
fn keep_last(bytes: &mut [u8])
    requires { 0 < length bytes.old }
    ensures { take 1 bytes.new ≡ drop (length bytes.old - 1) bytes.old }
{
    bytes[0] = bytes[bytes.len() - 1];
}

/// Ends a list of JSON with its comma taken back.
fn end_list_in(text: &mut Vec<u8>) -> Result<(), AllocError>
    ensures ended { OnOk result (text.new.items ≡ without_comma text.old.items ++ codes "\n]") }
    ensures some { 0 < length text.old.items → 0 < length text.new.items }
{
    if ends_in_comma(text.as_slice()) {
        over_last(text.as_mut_slice(), b'\n');
        text.push(b']')?;
        Ok(())
    } else {
        text.extend_from_slice(b"\n]")
    }
}

/// Writes a byte over the last one.
fn over_last(bytes: &mut [u8], byte: u8)
    requires { 0 < length bytes.old }
    ensures { bytes.new ≡ take (length bytes.old - 1) bytes.old ++ (byte ∷ []) }
{
    let last = bytes.len() - 1;
    bytes[last] = byte;
}

/// Whether the last byte is a comma.
fn ends_in_comma(text: &[u8]) -> bool
    ensures { result ≡ ends_in_comma text.now }
{
    text.last() == Some(&b',')
}
