//! Bytes that are framed, in place.

ghost use Rattle.std.specs.Prelude.{◌≡◌, ◌<◌, [], length, slice_index_or};
ghost use Rattle.d0_segments.specs.Pieces.{shared_of, groups_of};

use crate::cursor::Cursor;
use crate::header::Header;

/// Bytes that are framed: their header, and where the body begins after it. No group is empty, and
/// the header announces as many groups as there are.
#[derive(Drop)]
pub struct Framed<'a, H: Header> {
    header: H,
    body: Cursor<'a>,
    pub ghost counted: { H.kind.said header ≡ length (groups_of body.bytes.now) },
}

impl<'a, H: Header> Framed<'a, H> {
    /// A header and the body after it, with as many groups as the header announces.
    #[inline(always)]
    pub(crate) fn new(header: H, body: Cursor<'a>) -> Framed<'a, H>
        requires { H.kind.said header ≡ length (groups_of body.bytes.now) }
        ensures header { result.header ≡ header }
        ensures body { result.body ≡ body.entry }
    {
        Framed { header, body }
    }

    /// The header.
    pub fn header(&self) -> &H
        ensures { result.now ≡ self.now.header }
    {
        &self.header
    }

    /// How many groups there are, as many as the header announces.
    pub fn group_count(&self) -> usize
        ensures { result ≡ length (groups_of self.now.body.bytes.now) }
    {
        self.header.announced() as usize
    }

    /// The place after the header, where the segments that belong to the whole transmission begin.
    pub fn body(&self) -> Cursor<'a>
        ensures { result ≡ self.now.body }
    {
        self.body
    }

    /// The place where the segments of the transaction at `place` begin, from 0.
    pub fn group(&self, place: usize) -> Cursor<'a>
        requires { place < length (groups_of self.now.body.bytes.now) }
        ensures { shared_of result.bytes.now ≡ slice_index_or (groups_of self.now.body.bytes.now) place [] }
    {
        group_behind(self.body, place)
    }
}

/// The place where the segments of the group after this many others begin.
fn group_behind(body: Cursor<'_>, others: usize) -> Cursor<'_>
    requires { others < length (groups_of body.bytes.now) }
    ensures { shared_of result.bytes.now ≡ slice_index_or (groups_of body.entry.bytes.now) others [] }
{
    let mut rest = body;
    let mut left = others;
    while let Some(group) = rest.group() {
        if left == 0 {
            return group;
        }
        rest = group;
        left -= 1;
    }
    unreachable!()
}
