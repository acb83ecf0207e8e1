//! Describing one message.

ghost use Rattle.std.specs.Prelude.{◌≡◌, [], ◌∷◌, false, true, map, None};
ghost use Rattle.message_words.specs.AllFound.{FindsAll, FindsGroups, carried_said, first_said, group_of, place_told};
ghost use Rattle.message_words.specs.Described.{description, is_refused};
ghost use Rattle.message_parts.specs.Parts.{part_seen};
ghost use Rattle.message_words.specs.Rows.{AddsRows};
ghost use Rattle.message_words.specs.Sayings.{Finds};

use crate::finding_page::FindingPage;
use crate::page::Page;
use message_parts::{Carried, Form, MessageKind, Part, behind, dissect, front_of};
use std::alloc::Global;

impl Page {
    /// Describes a message, which stands on a line of the input. What the page had before is gone. Where memory is
    /// refused the page is refused.
    pub fn describe(&mut self, alloc: Global, line: u64, kind: MessageKind, bytes: &[u8])
        // The head, a row for each part, in order, and then what is found: word for word.
        ensures text { is_refused self.new ≡ false
            → self.new.out.bytes.items ≡ description self.old.style self.old.dropped line kind bytes.now }
        ensures style { self.new.style ≡ self.old.style }
        ensures dropped { self.new.dropped ≡ self.old.dropped }
    {
        self.begin(line, kind, bytes.len());
        let style = self.style;
        match dissect(alloc, kind, bytes) {
            Ok(dissected) => {
                self.findings.clear(style);
                self.findings
                    .gather(alloc, kind, bytes, dissected.carried.as_slice());
                self.parts(dissected.parts.as_slice());
                self.put_findings();
                self.end();
            }
            Err(_) => self.refuse(),
        }
    }

    /// Writes parts, each once and in order.
    fn parts(&mut self, parts: &[Part<'_>])
        ensures rows { AddsRows (map part_seen parts.now) self.old self.new }
        ensures style { self.new.style ≡ self.old.style }
        ensures dropped { self.new.dropped ≡ self.old.dropped }
        ensures findings { self.new.findings ≡ self.old.findings }
    {
        for part in parts {
            self.part(part);
        }
    }

    /// Notes that memory was refused.
    fn refuse(&mut self)
        ensures refused { self.new.note.refused ≡ true }
        ensures same { self.new ≡ record self.old { note = self.new.note } }
    {
        self.note.refuse();
    }
}

impl FindingPage {
    /// Writes what is found of a message that carries these transmissions, on an empty page.
    fn gather(&mut self, alloc: Global, kind: MessageKind, bytes: &[u8], carried: &[Carried])
        requires started { self.old.started ≡ false }
        requires within { self.old.within ≡ None }
        ensures { FindsAll kind bytes.now carried.now self.old self.new }
    {
        self.first(alloc, kind, bytes, carried);
        self.each_group(alloc, kind, bytes, carried);
    }

    /// Writes what an envelope or a record is.
    #[tactic(auto, using(crate::proofs::Sayings::none_said))]
    fn first(&mut self, alloc: Global, kind: MessageKind, bytes: &[u8], carried: &[Carried])
        ensures { Finds (first_said kind bytes.now carried.now) self.old self.new }
    {
        match kind {
            MessageKind::Packet => self.envelope(bytes),
            MessageKind::Record => self.record(alloc, bytes, carried),
            MessageKind::Request | MessageKind::Answer => {}
        }
    }

    /// Writes what is found of each transmission.
    fn each_group(&mut self, alloc: Global, kind: MessageKind, bytes: &[u8], carried: &[Carried])
        ensures { FindsGroups (map (group_of kind bytes.now) carried.now) self.old self.new }
    {
        for one in carried {
            self.group(alloc, kind, bytes, *one);
        }
    }

    /// Writes what is found of a transmission, with its place in a record.
    #[tactic(auto, using(crate::proofs::AllFound::group_found))]
    fn group(&mut self, alloc: Global, kind: MessageKind, bytes: &[u8], carried: Carried)
        ensures { FindsGroups (group_of kind bytes.now carried ∷ []) self.old self.new }
    {
        self.note_within(place_told(kind, carried.place));
        self.transmission(alloc, bytes, carried);
    }

    /// Writes what is found of a transmission in a message.
    fn transmission(&mut self, alloc: Global, bytes: &[u8], carried: Carried)
        ensures { Finds (carried_said bytes.now carried) self.old self.new }
    {
        let text = front_of(behind(bytes, carried.place), carried.size);
        match carried.form {
            Form::Request => self.request(alloc, text, carried.place),
            Form::Answer => self.answer(alloc, text, carried.place),
        }
    }
}

/// In a record the place of a transmission is told.
fn place_told(kind: MessageKind, place: usize) -> Option<usize>
    ensures { result ≡ place_told kind place }
{
    match kind {
        MessageKind::Record => Some(place),
        MessageKind::Request | MessageKind::Answer | MessageKind::Packet => None,
    }
}
