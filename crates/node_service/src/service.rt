//! A node that is served.

ghost use Rattle.std.specs.Prelude.{◌≡◌, codes, Some, IfNone, IfSome, OnOk};
ghost use Rattle.std.specs.Option.{option_copied};
ghost use Rattle.std.specs.List.{AllByRecursion};
ghost use Rattle.claim_model.specs.Node.{Done};
ghost use Rattle.world_setup.specs.Seen.{call_seen, node_seen, settings_seen};
ghost use Rattle.node_state.specs.Resting.{IsRecord, IsResting};
ghost use Rattle.node_service.specs.Answering.{refused_line};
ghost use Rattle.kept_logs.specs.Fits.{FitsStamped};
ghost use Rattle.node_service.specs.Lines.{kept_asked, kept_making, line_kept};
ghost use Rattle.node_service.specs.Most.{most_at};
ghost use Rattle.node_service.specs.Serving.{after_asked, after_call, after_line, again_line, cleared, making, saying, telling};
ghost use Rattle.node_service.specs.Asking.{Calls, noted_seen};
ghost use Rattle.node_state.specs.Nodes.{request_of};

use crate::answering::{put_idle, put_known, put_refused};
use crate::asking::{Asked, Noted, asked_of};
use crate::idle::is_idle_call;
use crate::most::most_of;
use crate::questions::Question;
use crate::references::References;
use crate::sharing::SharedSettings;
use crate::telling::{put_made, put_told};
use kept_logs::{LogVersion, Reference, Stamp, record_bytes};
use node_log::Record;
use node_state::NodeState;
use octets::Octets;
use std::alloc::{AllocError, Global};
use std::marker::Model;
use std::sync::Arc;
use world_setup::{Call, CheckedSettings, Fault, Node};

/// A node that is served, with what is to be appended to its log and, after that, to be written.
#[derive(Drop)]
pub struct Service {
    pub(crate) shared: Arc<SharedSettings>,
    pub(crate) name: Node,
    pub(crate) version: LogVersion,
    pub(crate) state: NodeState,
    pub(crate) calls: u64,
    pub(crate) references: References,
    pub(crate) records: Vec<u8>,
    pub(crate) out: Vec<u8>,
}

impl Model for Service {
    ghost use Rattle.std.specs.Arc.{arc_value};
    ghost use Rattle.world_setup.specs.Seen.{node_seen};
    ghost use Rattle.kept_logs.specs.Digests.{version_seen};
    ghost use Rattle.node_service.specs.Serving.{Serving};

    ghost Value = { Serving };

    ghost view = { λ s. record {
      settings = (arc_value s.shared).settings;
      node = node_seen s.name;
      version = version_seen s.version;
      state = s.state;
      calls = s.calls;
      references = s.references;
      records = s.records.items;
      out = s.out.items;
    } };
}

impl Service {
    /// Does what a line asks of the node, and adds what is to be appended to the log and what is to be written.
    ///
    /// The lines are those that `asked_of` reads. A line that spells nothing is `refused Line`; a call that the node refuses is
    /// `refused` and the name of the refusal, and changes nothing. A submission whose reference an earlier one has is `known` and that one's
    /// number where it has the same request, else `refused ReferenceReused`; neither changes anything. A tick of a pharmacy
    /// without an open entry is `idle`: it changes nothing and is not recorded.
    ///
    /// # Errors
    /// Memory was refused. The node may have made the call and has no record of it, so the process has to end: the log
    /// does not have the call, and nothing that it sent was written.
    #[tactic(auto, unfolding(crate::specs::Serving::after_line))]
    pub fn serve(&mut self, alloc: Global, line: &[u8]) -> Result<(), AllocError>
        ensures served { OnOk result (self.new ≡ after_line self.old line.now) }
        ensures fits { OnOk result (AllByRecursion FitsStamped (line_kept self.old line.now)) }
    {
        match asked_of(alloc, line)? {
            Some(Asked::Call(noted)) => self.ask(alloc, noted),
            Some(Asked::Tell(question)) => self.tell(alloc, question),
            None => self.refuse_line(),
        }
    }

    /// Tells what a question asks.
    fn tell(&mut self, alloc: Global, question: Question) -> Result<(), AllocError>
        ensures { OnOk result (self.new ≡ telling self.old question) }
    {
        put_told(alloc, &mut self.out, &self.state, self.name, question)
    }

    /// Says that a line spells nothing.
    fn refuse_line(&mut self) -> Result<(), AllocError>
        ensures { OnOk result (self.new ≡ saying self.old (refused_line (codes "Line"))) }
    {
        put_refused(&mut self.out, b"Line")
    }

    /// Makes a call, but for a submission that was made before, under its reference.
    fn ask(&mut self, alloc: Global, noted: Noted) -> Result<(), AllocError>
        ensures made { OnOk result (self.new ≡ after_asked self.old (Some (Calls (noted_seen noted)))) }
        ensures fits { OnOk result (AllByRecursion FitsStamped (kept_asked self.old (Some (Calls (noted_seen noted))))) }
    {
        if let Call::Submit(text) = &noted.call {
            if let Some(number) = self.references.number_of(noted.reference.as_slice()) {
                return self.tell_again(alloc, number, text);
            }
        }
        self.make(alloc, noted)
    }

    /// Tells the number of a submission again, where it has this request.
    fn tell_again(&mut self, alloc: Global, number: u64, text: &Octets) -> Result<(), AllocError>
        ensures { OnOk result (self.new
            ≡ saying self.old (again_line number text.now (request_of self.old.state number))) }
    {
        match self.state.request(alloc, number)? {
            Some(request) if request.as_slice() == text.as_slice() => put_known(
                &mut self.out,
                number,
            ),
            _ => put_refused(&mut self.out, b"ReferenceReused"),
        }
    }

    /// Makes a call, and records it where it was made and is no tick that changes nothing.
    #[tactic(auto, unfolding(crate::specs::Serving::after_call))]
    fn make(&mut self, alloc: Global, noted: Noted) -> Result<(), AllocError>
        ensures made { OnOk result (self.new
            ≡ making self.old (noted_seen noted).stamp (call_seen noted.call)) }
        ensures fits { OnOk result (AllByRecursion FitsStamped
            (kept_making self.old (noted_seen noted).stamp (call_seen noted.call))) }
    {
        if is_idle_call(&self.state, &noted.call) {
            return put_idle(&mut self.out);
        }
        let Noted {
            call,
            time,
            reference,
        } = noted;
        match self
            .state
            .step(alloc, self.shared.checked().routes(), &call)
        {
            Ok(sent) => self.record(alloc, time, reference.as_slice(), &Record::new(call, sent)),
            Err(Fault::OutOfMemory) => Err(AllocError),
            Err(fault) => put_refused(&mut self.out, fault.name().as_bytes()),
        }
    }

    /// Records a call that was made.
    #[tactic(auto, unfolding(crate::specs::Serving::after_call))]
    fn record(
        &mut self,
        alloc: Global,
        time: u64,
        reference: &[u8],
        one: &Record,
    ) -> Result<(), AllocError>
        ensures made { OnOk result (self.new ≡ after_call self.old (record { time = time; reference = reference.now })
            one.now.call (Done self.old.state one.now.sent)) }
        ensures fits { OnOk result (FitsStamped
            (record { logged = one.now; stamp = record { time = time; reference = reference.now } })) }
    {
        let Some(number) = self.calls.checked_add(1) else {
            return Err(AllocError);
        };
        let stamp = Stamp { time, reference };
        let bytes = record_bytes(alloc, self.version, number, one, &stamp)?;
        self.records.extend_from_slice(bytes.as_slice())?;
        put_made(alloc, &mut self.out, &self.state, one)?;
        self.references
            .note(alloc, reference, one.call(), &self.state)?;
        self.calls = number;
        Ok(())
    }

    /// The bytes of the node's record, where it is at rest: what its settings make of them is the node that a call to start it makes.
    /// `None` where it is up.
    pub fn record_at_rest(&self) -> Option<&[u8]>
        ensures record { IfSome (option_copied result) (λ bytes.
            IsRecord (settings_seen self.now.settings) self.now.node bytes self.now.state) }
        ensures none { IfNone result (IsResting (settings_seen self.now.settings) self.now.node self.now.state → ⊥) }
    {
        self.state.record(self.shared.checked(), self.name)
    }

    /// The node as it stands, to be read.
    pub fn state(&self) -> &NodeState
        ensures { result.now ≡ self.now.state }
    {
        &self.state
    }

    /// The settings.
    pub fn settings(&self) -> &CheckedSettings
        ensures { result.now ≡ self.now.settings }
    {
        self.shared.checked()
    }

    /// The node's name.
    pub fn own_name(&self) -> Node
        ensures { node_seen result ≡ self.now.node }
    {
        self.name
    }

    /// The most entries of the pharmacy's journal, slots of the switch's table, or rows of the payer's book.
    pub fn most(&self) -> u32
        ensures { result ≡ most_at (settings_seen self.now.settings) self.now.node self.now.state }
    {
        match self.state.switch_cap() {
            Some(cap) => cap,
            None => most_of(self.shared.checked().settings(), self.name),
        }
    }

    /// How many calls the node's log has, those included that are to be appended.
    pub fn calls(&self) -> u64
        ensures { result ≡ self.now.calls }
    {
        self.calls
    }

    /// The references of the node's submissions, in order, each with its number.
    pub fn into_references(self) -> Vec<Reference>
        ensures { result.items ≡ self.references }
    {
        let Service { references, .. } = self;
        references.into_list()
    }

    /// What is to be appended to the log, and synced, before `written` may leave.
    pub fn records(&self) -> &[u8]
        ensures { result.now ≡ self.now.records }
    {
        self.records.as_slice()
    }

    /// What is to be written once the records are on disk.
    pub fn written(&self) -> &[u8]
        ensures { result.now ≡ self.now.out }
    {
        self.out.as_slice()
    }

    /// Notes that the records are on disk and the rest was written.
    pub fn clear(&mut self)
        ensures { self.new ≡ cleared self.old }
    {
        self.records.clear();
        self.out.clear();
    }
}
