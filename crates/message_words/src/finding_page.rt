//! What is found of a message, as it is written.

ghost use Rattle.std.specs.Prelude.{◌≡◌, [], ◌||◌, false, true, None, Some};
ghost use Rattle.message_words.specs.Sayings.{Begins, finding_head, finding_name, finding_object, finding_text, within_member, within_words};
ghost use Rattle.message_words.specs.Written.{Takes};
ghost use Rattle.message_words.specs.declared.page.Style.TheVariants as styled;

use crate::page::{Style, put_comma};
use crate::text::Text;
use std::alloc::Global;

/// What is found of a message, while it is written.
#[derive(Drop)]
pub(crate) struct FindingPage {
    pub(crate) out: Text,
    /// What the finding at hand says.
    pub(crate) note: Text,
    /// Its members in JSON.
    pub(crate) members: Text,
    /// Bytes around a fault as they are printed, or the codes of a rejection.
    pub(crate) around: Text,
    /// What stands below the finding at hand in lines.
    pub(crate) below: Text,
    pub(crate) style: Style,
    /// Whether a finding was written.
    started: bool,
    /// Where in a record the transmission stands that findings are about.
    within: Option<usize>,
}

impl FindingPage {
    /// Nothing is found yet.
    pub(crate) fn new(alloc: Global, style: Style) -> FindingPage
        ensures text { result.out.bytes.items ≡ [] }
        ensures out { result.out.refused ≡ false }
        ensures note { result.note.refused ≡ false }
        ensures members { result.members.refused ≡ false }
        ensures around { result.around.refused ≡ false }
        ensures below { result.below.refused ≡ false }
        ensures style { result.style ≡ style }
    {
        FindingPage {
            out: Text::new(alloc),
            note: Text::new(alloc),
            members: Text::new(alloc),
            around: Text::new(alloc),
            below: Text::new(alloc),
            style,
            started: false,
            within: None,
        }
    }

    /// Whether memory was refused.
    pub(crate) fn is_refused(&self) -> bool
        ensures { result ≡ (self.now.out.refused || self.now.note.refused || self.now.members.refused
            || self.now.around.refused || self.now.below.refused) }
    {
        self.out.is_refused()
            || self.note.is_refused()
            || self.members.is_refused()
            || self.around.is_refused()
            || self.below.is_refused()
    }

    /// What is written.
    pub(crate) fn as_slice(&self) -> &[u8]
        ensures { result.now ≡ self.now.out.bytes.items }
    {
        self.out.as_slice()
    }

    /// Nothing is found yet of the next message, and it is written so.
    pub(crate) fn clear(&mut self, style: Style)
        ensures text { self.new.out.bytes.items ≡ [] }
        ensures refused { self.new.out.refused ≡ self.old.out.refused }
        ensures same { self.new
            ≡ record self.old { out = self.new.out; style = style; started = false; within = None } }
    {
        self.out.clear();
        self.style = style;
        self.started = false;
        self.within = None;
    }

    /// Notes that memory was refused.
    pub(crate) fn refuse(&mut self)
        ensures { self.new.note.refused ≡ true }
    {
        self.note.refuse();
    }

    /// Notes where in a record the transmission stands that the findings that follow are about.
    pub(crate) fn note_within(&mut self, within: Option<usize>)
        ensures { self.new ≡ record self.old { within = within } }
    {
        self.within = within;
    }

    /// Begins a finding. What it says is put into the note after its place in a record, and its members are put
    /// together.
    pub(crate) fn begin_finding(&mut self)
        ensures { Begins self.old self.new }
    {
        self.members.clear();
        self.below.clear();
        self.note.clear();
        put_within(&mut self.note, self.within);
    }

    /// Writes a finding of this name that was put together.
    pub(crate) fn end_finding(&mut self, finding: &str)
        ensures text { Takes (finding_text self.old.style self.old.started self.old.within finding.now
            self.old.members.bytes.items self.old.note.bytes.items self.old.below.bytes.items) self.old.out self.new.out }
        ensures same { self.new ≡ record self.old { out = self.new.out; started = true } }
    {
        match self.style {
            Style::Lines => self.put_line(),
            Style::Json => self.put_object(finding),
        }
        self.started = true;
    }

    /// Writes the finding that was put together as a line.
    fn put_line(&mut self)
        ensures text { Takes (finding_text styled.Lines self.old.started self.old.within [] []
            self.old.note.bytes.items self.old.below.bytes.items) self.old.out self.new.out }
        ensures same { self.new ≡ record self.old { out = self.new.out } }
    {
        self.out.put("\n  ");
        self.out.bytes(self.note.as_slice());
        self.out.bytes(self.below.as_slice());
    }

    /// Writes the finding that was put together as an object.
    fn put_object(&mut self, finding: &str)
        ensures text { Takes (finding_text styled.Json self.old.started self.old.within finding.now
            self.old.members.bytes.items self.old.note.bytes.items []) self.old.out self.new.out }
        ensures same { self.new ≡ record self.old { out = self.new.out } }
    {
        let head = Head {
            started: self.started,
            within: self.within,
        };
        put_finding(
            &mut self.out,
            head,
            finding,
            self.members.as_slice(),
            self.note.as_slice(),
        );
    }
}

/// What is known of a finding before it is written.
#[derive(Clone, Copy)]
struct Head {
    started: bool,
    within: Option<usize>,
}

/// Writes a finding as an object.
#[tactic(auto, unfolding(crate::specs::Sayings::finding_object), using(crate::proofs::Written::four))]
fn put_finding(out: &mut Text, head: Head, finding: &str, members: &[u8], all: &[u8])
    ensures { Takes (finding_object head.started head.within finding.now members.now all.now) out.old out.new }
{
    put_head(out, head.started, finding, head.within);
    out.bytes(members);
    out.word_member("says", all);
    out.put("}");
}

/// Begins a finding as an object.
#[tactic(auto, unfolding(crate::specs::Sayings::finding_head))]
fn put_head(out: &mut Text, started: bool, finding: &str, within: Option<usize>)
    ensures { Takes (finding_head started finding.now within) out.old out.new }
{
    put_comma(out, Style::Json, started);
    put_name(out, finding);
    put_within_member(out, within);
}

/// Writes the name of a finding after the bracket of its object.
fn put_name(out: &mut Text, finding: &str)
    ensures { Takes (finding_name finding.now) out.old out.new }
{
    out.between("{\"finding\":\"", finding.as_bytes(), "\"");
}

/// Writes where in a record the transmission stands that a finding is about, in front of what it says.
fn put_within(out: &mut Text, within: Option<usize>)
    ensures { Takes (within_words within) out.old out.new }
{
    match within {
        Some(place) => put_place(out, place),
        None => out.put(""),
    }
}

/// The same of a place.
fn put_place(out: &mut Text, place: usize)
    ensures { Takes (within_words (Some place)) out.old out.new }
{
    out.put("at byte ");
    out.number(place as u64);
    out.put(": ");
}

/// The same as a member.
fn put_within_member(out: &mut Text, within: Option<usize>)
    ensures { Takes (within_member within) out.old out.new }
{
    match within {
        Some(place) => out.number_member("text_at", place as u64),
        None => out.put(""),
    }
}
