//! One payer, up or at rest.

ghost use Rattle.std.specs.Prelude.{◌≡◌, ◌≤◌, [], length, refl, IfOk, OnErr};
ghost use Rattle.std.specs.Option.{option_copied};
ghost use Rattle.bin_routes.specs.Table.{RouteMaps};
ghost use Rattle.claim_model.specs.Bytes.{bytes_with};
ghost use Rattle.claim_model.specs.Book.{unadvised};
ghost use Rattle.claim_model.specs.Words.{SetPrice, SetTerms};
ghost use Rattle.claim_model.specs.Node.{Up, Revise, OfPlan, Adjudicate, payer_step, payer_takes, advice_in};
ghost use Rattle.claim_model.specs.Held.{book_in};
ghost use Rattle.world_setup.specs.Seen.{node_seen};
ghost use Rattle.node_state.specs.Outcomes.{Makes, Refuses, PayerMakes, PayerRefuses};
ghost use Rattle.node_state.specs.Records.{book_record};
ghost use Rattle.node_state.specs.Taking.{payer_handles, payer_advised, payer_answers, payer_reads};

use crate::book_bytes::BookBytes;
use crate::book_reading::BookReading;
use crate::opening::{is_request, read_envelope};
use crate::powered::{Kind, Powered, State};
use bin_routes::{PayerNo, Routes};
use envelope::Envelope;
use octets::Octets;
use payer_book::{Book, BookSettings, HashKeys, Plan};
use std::alloc::{AllocError, Global};
use world_setup::{Call, Fault, Node, Refusal, Sent};

/// A payer, up or at rest. At rest it is the bytes of its book's record, beside its number and settings.
pub type PayerNode = Powered<Book>;

impl Kind for Book {
    type Rest = BookBytes;

    ghost step = { λ routes node call. payer_step (bytes_with routes) node call };

    ghost most = { λ node call. 1 };

    ghost takes = { λ routes node from envelope. payer_handles routes node from envelope };

    /// Takes a request and nothing else.
    fn take(
        &mut self,
        alloc: Global,
        routes: &Routes,
        from: Node,
        envelope: &Envelope<'_>,
        _packet: &Octets,
    ) -> Result<Vec<Sent>, Fault> {
        if is_request(envelope) {
            answer(alloc, self, routes, from, envelope)
        } else {
            Err(Fault::Refused(Refusal::Unreadable))
        }
    }

    /// The same: a payer reads a request for what it orders.
    fn take_known(
        &mut self,
        alloc: Global,
        routes: &Routes,
        from: Node,
        envelope: &Envelope<'_>,
        packet: &Octets,
    ) -> Result<Vec<Sent>, Fault> {
        self.take(alloc, routes, from, envelope, packet)
    }

    /// Changes its plan, or takes a packet with an advice.
    fn ask(
        &mut self,
        alloc: Global,
        routes: &Routes,
        call: Call<&Octets>,
    ) -> Result<Vec<Sent>, Fault> {
        match call {
            Call::Plan { product, price } => change_plan(alloc, self, product.as_slice(), price),
            Call::Terms { fee, copay } => change_terms(alloc, self, fee, copay),
            Call::Adjudicate {
                from,
                bytes,
                advice,
            } => adjudicate(alloc, self, routes, from, bytes, advice),
            Call::Submit(_) | Call::Tick | Call::Retry { .. } | Call::Cap { .. } => {
                Err(Fault::Refused(Refusal::NoSuchNode))
            }
            Call::Take { .. } | Call::Stop | Call::Start => unreachable!(),
        }
    }

    fn save(&self, alloc: Global) -> Result<BookBytes, AllocError> {
        BookBytes::save(alloc, self)
    }

    fn wake(alloc: Global, rest: &BookBytes) -> Result<Book, AllocError> {
        rest.start(alloc)
    }

    fn revise(
        _alloc: Global,
        _rest: &mut BookBytes,
        call: Call<&Octets>,
    ) -> Result<Vec<Sent>, Fault> {
        match call {
            Call::Plan { .. } | Call::Terms { .. } | Call::Adjudicate { .. } => {
                Err(Fault::Refused(Refusal::Down))
            }
            _ => Err(Fault::Refused(Refusal::NoSuchNode)),
        }
    }

    ghost reads = { λ routes node from bytes read is. payer_reads routes node from bytes read is };

    ghost takes_nothing = { λ routes rest from bytes. refl };

    ghost stops_once = { λ routes rest. refl };

    ghost starts_once = { λ routes node. refl };
}

/// Answers a request to the node that it came from. The room for what is sent is had first.
fn answer(
    alloc: Global,
    book: &mut Book,
    routes: &Routes,
    from: Node,
    envelope: &Envelope<'_>,
) -> Result<Vec<Sent>, Fault>
    ensures ok { Makes (payer_answers routes.now book.old unadvised (node_seen from) envelope.now) (Up book.new) result }
    ensures fault { Refuses (payer_answers routes.now book.old unadvised (node_seen from) envelope.now) result }
    ensures few { IfOk result (λ sent. length sent.items ≤ 1) }
    ensures err { OnErr result (book.new ≡ book.old) }
{
    let mut sent = Vec::with_capacity(alloc, 1)?;
    let bytes = book.answer_packet(routes, envelope.id(), envelope.payload())?;
    sent.push_reserved(Sent { to: from, bytes });
    Ok(sent)
}

/// Takes a packet with an advice, where the payer asks.
fn adjudicate(
    alloc: Global,
    book: &mut Book,
    routes: &Routes,
    from: Node,
    packet: &Octets,
    advice: &Octets,
) -> Result<Vec<Sent>, Fault>
    ensures ok { PayerMakes routes.now (Up book.old) (Adjudicate (node_seen from) packet.now advice.now)
        (Up book.new) result }
    ensures fault { PayerRefuses routes.now (Up book.old) (Adjudicate (node_seen from) packet.now advice.now) result }
    ensures few { IfOk result (λ sent. length sent.items ≤ 1) }
    ensures err { OnErr result (book.new ≡ book.old) }
{
    if book.settings().asks() {
        open_advised(alloc, book, routes, from, packet, advice.as_slice())
    } else {
        Err(Fault::Refused(Refusal::NotAsked))
    }
}

/// Opens the packet that comes with an advice, and answers the request in it.
fn open_advised(
    alloc: Global,
    book: &mut Book,
    routes: &Routes,
    from: Node,
    packet: &Octets,
    advice: &[u8],
) -> Result<Vec<Sent>, Fault>
    ensures ok { Makes (payer_takes (bytes_with routes.now) book.old (advice_in (bytes_with routes.now) advice.now)
        (node_seen from) ((bytes_with routes.now).read_envelope packet.now)) (Up book.new) result }
    ensures fault { Refuses (payer_takes (bytes_with routes.now) book.old (advice_in (bytes_with routes.now) advice.now)
        (node_seen from) ((bytes_with routes.now).read_envelope packet.now)) result }
    ensures few { IfOk result (λ sent. length sent.items ≤ 1) }
    ensures err { OnErr result (book.new ≡ book.old) }
{
    match read_envelope(packet) {
        Ok(envelope) => take_advised(alloc, book, routes, from, &envelope, advice),
        Err(fault) => Err(Fault::Refused(Refusal::NoEnvelope(fault))),
    }
}

/// Takes a request and nothing else.
fn take_advised(
    alloc: Global,
    book: &mut Book,
    routes: &Routes,
    from: Node,
    envelope: &Envelope<'_>,
    advice: &[u8],
) -> Result<Vec<Sent>, Fault>
    ensures ok { Makes (payer_advised routes.now book.old (advice_in (bytes_with routes.now) advice.now)
        (node_seen from) envelope.now) (Up book.new) result }
    ensures fault { Refuses (payer_advised routes.now book.old (advice_in (bytes_with routes.now) advice.now)
        (node_seen from) envelope.now) result }
    ensures few { IfOk result (λ sent. length sent.items ≤ 1) }
    ensures err { OnErr result (book.new ≡ book.old) }
{
    if is_request(envelope) {
        answer_advised(alloc, book, routes, from, envelope, advice)
    } else {
        Err(Fault::Refused(Refusal::Unreadable))
    }
}

/// Answers a request with an advice. The room for what is sent is had first.
fn answer_advised(
    alloc: Global,
    book: &mut Book,
    routes: &Routes,
    from: Node,
    envelope: &Envelope<'_>,
    advice: &[u8],
) -> Result<Vec<Sent>, Fault>
    ensures ok { Makes (payer_answers routes.now book.old (advice_in (bytes_with routes.now) advice.now) (node_seen from)
        envelope.now) (Up book.new) result }
    ensures fault { Refuses (payer_answers routes.now book.old (advice_in (bytes_with routes.now) advice.now)
        (node_seen from) envelope.now) result }
    ensures few { IfOk result (λ sent. length sent.items ≤ 1) }
    ensures err { OnErr result (book.new ≡ book.old) }
{
    let mut sent = Vec::with_capacity(alloc, 1)?;
    let bytes = book.advised_packet(routes, envelope.id(), envelope.payload(), advice)?;
    sent.push_reserved(Sent { to: from, bytes });
    Ok(sent)
}

/// Sets the price of a product, in ten-thousandths of a dollar a unit, or with `None` takes the product off the plan. Nothing
/// is sent.
fn change_plan(
    alloc: Global,
    book: &mut Book,
    product: &[u8],
    price: Option<u32>,
) -> Result<Vec<Sent>, Fault>
    ensures ok { (routes : RouteMaps)
        → PayerMakes routes (Up book.old) (Revise (OfPlan (SetPrice product.now price))) (Up book.new) result }
    ensures fault { (routes : RouteMaps)
        → PayerRefuses routes (Up book.old) (Revise (OfPlan (SetPrice product.now price))) result }
    ensures few { IfOk result (λ sent. length sent.items ≤ 1) }
    ensures err { OnErr result (book.new ≡ book.old) }
{
    book.change_plan(product, price)?;
    Ok(Vec::new(alloc))
}

/// Sets the fee and the copay, in cents. Nothing is sent.
fn change_terms(alloc: Global, book: &mut Book, fee: u32, copay: u32) -> Result<Vec<Sent>, Fault>
    ensures ok { (routes : RouteMaps)
        → PayerMakes routes (Up book.old) (Revise (OfPlan (SetTerms fee copay))) (Up book.new) result }
    ensures fault { (routes : RouteMaps)
        → PayerRefuses routes (Up book.old) (Revise (OfPlan (SetTerms fee copay))) result }
    ensures few { IfOk result (λ sent. length sent.items ≤ 1) }
    ensures err { OnErr result (book.new ≡ book.old) }
{
    book.change_terms(fee, copay)?;
    Ok(Vec::new(alloc))
}

impl PayerNode {
    /// A payer that is up, with an empty book. Its book's maps hash with keys that are the same in every program.
    pub fn new(alloc: Global, payer: PayerNo, settings: BookSettings, plan: Plan) -> PayerNode
        ensures { result ≡ Up (record { payer = payer; settings = settings; plan = plan; rows = [] }) }
    {
        PayerNode::keyed(alloc, payer, settings, plan, &HashKeys::fixed())
    }

    /// The same, and its book's maps hash with these keys, as often as it is stopped and started.
    pub fn keyed(
        alloc: Global,
        payer: PayerNo,
        settings: BookSettings,
        plan: Plan,
        keys: &HashKeys,
    ) -> PayerNode
        ensures { result ≡ Up (record { payer = payer; settings = settings; plan = plan; rows = [] }) }
    {
        Powered::running(Book::keyed(alloc, payer, settings, plan, keys))
    }

    /// The bytes that there are of it at rest: its book's text, of version 2. None while it is up.
    pub fn record(&self) -> Option<&[u8]>
        ensures { option_copied result ≡ book_record self.now }
    {
        match &self.state {
            State::Up(_) => None,
            State::AtRest(kept) => Some(kept.bytes()),
        }
    }

    /// Its book to be read: as it stands, or at rest read once from the record.
    pub fn book(&self, alloc: Global) -> Result<BookReading<'_>, AllocError>
        ensures { IfOk result (λ book. book ≡ book_in self.now) }
    {
        match &self.state {
            State::Up(book) => Ok(BookReading::lent(book)),
            State::AtRest(kept) => Ok(BookReading::read(kept.start(alloc)?)),
        }
    }
}
