//! One part of a message's bytes.

use crate::marks::Mark;
use crate::names::FieldName;

/// What a stretch of bytes is.
#[derive(Clone, Copy, PartialEq, Eq)]
pub enum PartKind {
    /// A field of a header, at its fixed place.
    Header(FieldName),
    /// A segment separator and the field that identifies the segment, as `\S\FAM07`.
    Segment,
    /// A group separator: the next transaction begins.
    Group,
    /// A field separator, the two bytes that name the field, and its value; which field it is, where the
    /// product knows it in its segment.
    Field(Option<FieldName>),
    /// A mark, a number or a text of an envelope or a record.
    Mark(Mark),
    /// Bytes that stand where none should.
    Stray,
}

/// A stretch of a message's bytes.
#[derive(Clone, Copy)]
pub struct Part<'a> {
    /// The place of its first byte, from 0.
    pub place: usize,
    /// Its bytes.
    pub bytes: &'a [u8],
    /// What it is.
    pub kind: PartKind,
}
