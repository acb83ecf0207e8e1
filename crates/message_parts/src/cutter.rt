//! Cutting a message into parts from its first byte to its last.

ghost use Rattle.std.specs.Prelude.{◌≡◌, ◌+◌, ◌-◌, ◌≤◌, ◌++◌, [], ◌∷◌, length, take, drop, map, IfOk, OnOk};
ghost use Rattle.message_parts.specs.Parts.{AreParts, part_seen};
ghost use Rattle.message_parts.specs.Added.{next_part, some_part, stray_part};

use crate::part::{Part, PartKind};
use std::alloc::{AllocError, Global};
use std::marker::Model;

/// How many parts there is room for at first: as many as most messages have.
const ROOM: usize = 48;

/// A message that is cut into parts up to a place. The parts are the bytes up to there.
#[derive(Drop)]
pub(crate) struct Cutter<'a> {
    whole: &'a [u8],
    place: usize,
    parts: Vec<Part<'a>>,
}

impl<'a> Model for Cutter<'a> {
    ghost use Rattle.std.specs.Prelude.{map};
    ghost use Rattle.message_parts.specs.Parts.{Cut, IsCut, part_seen};

    ghost Value = { Cut };

    ghost view = { λ c. record { whole = c.whole.now; place = c.place; parts = map part_seen c.parts.items } };

    ghost invariant = { λ c. let parts = map part_seen c.parts.items in
        IsCut (record { whole = c.whole.now; place = c.place; parts = parts }) };
}

impl<'a> Cutter<'a> {
    /// A message of which nothing is cut.
    pub(crate) fn new(alloc: Global, whole: &'a [u8]) -> Result<Cutter<'a>, AllocError>
        ensures whole { IfOk result (λ c. c.whole ≡ whole.now) }
        ensures place { IfOk result (λ c. c.place ≡ 0) }
        ensures parts { IfOk result (λ c. c.parts ≡ []) }
    {
        let parts = Vec::with_capacity(alloc, ROOM)?;
        Ok(Cutter {
            whole,
            place: 0,
            parts,
        })
    }

    /// The bytes that are left.
    pub(crate) fn left(&self) -> &'a [u8]
        ensures left { result.now ≡ drop self.now.place self.now.whole }
        ensures within { self.now.place + length result.now ≡ length self.now.whole }
    {
        &self.whole[self.place..]
    }

    /// The place of the first byte that is left.
    pub(crate) fn place(&self) -> usize
        ensures { result ≡ self.now.place }
    {
        self.place
    }

    /// Cuts off a part of this many bytes.
    pub(crate) fn cut(&mut self, kind: PartKind, count: usize) -> Result<(), AllocError>
        requires { self.old.place + count ≤ length self.old.whole }
        ensures whole { self.new.whole ≡ self.old.whole }
        ensures place { OnOk result (self.new.place ≡ self.old.place + count) }
        ensures parts { OnOk result (self.new.parts ≡ self.old.parts ++ next_part self.old kind count ∷ []) }
    {
        let place = self.place;
        let bytes = stretch(self.whole, place, count);
        self.parts.push(Part { place, bytes, kind })?;
        self.place = place + count;
        Ok(())
    }

    /// The same, but no part of no bytes.
    pub(crate) fn cut_some(&mut self, kind: PartKind, count: usize) -> Result<(), AllocError>
        requires { self.old.place + count ≤ length self.old.whole }
        ensures whole { self.new.whole ≡ self.old.whole }
        ensures place { OnOk result (self.new.place ≡ self.old.place + count) }
        ensures parts { OnOk result (self.new.parts ≡ self.old.parts ++ some_part self.old kind count) }
    {
        if count == 0 {
            return Ok(());
        }
        self.cut(kind, count)
    }

    /// The parts, of which the last one is what was left.
    pub(crate) fn finish(mut self) -> Result<Vec<Part<'a>>, AllocError>
        ensures parts { IfOk result (λ parts. AreParts self.entry.whole (map part_seen parts.items)) }
        ensures are { IfOk result (λ parts. map part_seen parts.items ≡ self.entry.parts ++ stray_part self.entry) }
    {
        self.cut_rest()?;
        Ok(self.into_parts())
    }

    /// Cuts off what is left as one part, where bytes are left.
    fn cut_rest(&mut self) -> Result<(), AllocError>
        ensures whole { self.new.whole ≡ self.old.whole }
        ensures all { OnOk result (self.new.place ≡ length self.new.whole) }
        ensures parts { OnOk result (self.new.parts ≡ self.old.parts ++ stray_part self.old) }
    {
        let left = self.whole.len() - self.place;
        if left == 0 {
            return Ok(());
        }
        self.cut(PartKind::Stray, left)
    }

    /// The parts of a message that is cut to its end.
    fn into_parts(self) -> Vec<Part<'a>>
        requires { self.place ≡ length self.whole }
        ensures parts { AreParts self.entry.whole (map part_seen result.items) }
        ensures are { map part_seen result.items ≡ self.entry.parts }
    {
        let Cutter {
            whole: _,
            place: _,
            parts,
        } = self;
        parts
    }
}

/// This many bytes from a place on.
#[inline(always)]
fn stretch(bytes: &[u8], place: usize, size: usize) -> &[u8]
    requires { place + size ≤ length bytes.now }
    ensures { result.now ≡ take size (drop place bytes.now) }
{
    &bytes[place..place + size]
}
