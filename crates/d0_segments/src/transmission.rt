//! A transmission: a header, shared segments and groups of segments.

ghost use Rattle.std.specs.Prelude.{◌≡◌, ◌<◌, [], true, length, slice_index_or};
ghost use Rattle.d0_segments.specs.Parts.{are_groups};
ghost use Rattle.d0_segments.specs.Views.{segments_parts, groups_parts};

use crate::header::Header;
use crate::segment::Segment;

/// A transmission whose fields are lent. The segments before the first group belong to the whole
/// transmission, and each group has the segments of one transaction. No group is empty, and the
/// header announces as many groups as there are.
#[derive(Drop)]
pub struct Transmission<'a, H: Header> {
    header: H,
    shared: Vec<Segment<'a>>,
    groups: Vec<Vec<Segment<'a>>>,
    pub ghost no_empty_group: { are_groups (groups_parts groups.items) ≡ true },
    pub ghost counted: { H.kind.said header ≡ length groups.items },
}

impl<'a, H: Header> Transmission<'a, H> {
    /// A transmission of these parts, none of whose groups is empty and whose header announces
    /// as many groups as there are.
    pub fn new(
        header: H,
        shared: Vec<Segment<'a>>,
        groups: Vec<Vec<Segment<'a>>>,
    ) -> Transmission<'a, H>
        requires no_empty_group { are_groups (groups_parts groups.items) ≡ true }
        requires counted { H.kind.said header ≡ length groups.items }
        ensures header { result.header ≡ header }
        ensures shared { result.shared ≡ shared.entry }
        ensures groups { result.groups ≡ groups.entry }
    {
        Transmission {
            header,
            shared,
            groups,
        }
    }

    /// The header.
    pub fn header(&self) -> &H
        ensures { result.now ≡ self.now.header }
    {
        &self.header
    }

    /// The segments that belong to the whole transmission, in order.
    pub fn shared(&self) -> &[Segment<'a>]
        ensures { result.now ≡ self.now.shared.items }
    {
        &self.shared
    }

    /// The groups, in order: the segments of one transaction each.
    pub fn groups(&self) -> &[Vec<Segment<'a>>]
        ensures { result.now ≡ self.now.groups.items }
    {
        &self.groups
    }

    /// The segments of the transaction at `place`, from 0.
    pub fn group(&self, place: usize) -> &[Segment<'a>]
        requires { place < length self.now.groups.items }
        ensures { segments_parts result.now ≡ slice_index_or (groups_parts self.now.groups.items) place [] }
    {
        &self.groups[place]
    }
}
