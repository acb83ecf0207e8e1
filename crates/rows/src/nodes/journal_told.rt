//! How the parts of a journal are told.

use case_files::Told;
use pharmacy_journal::{CountedPayment, EntryView, KeptEntry, PharmacySettings, Sent};
use std::alloc::AllocError;

/// Tells the packets that a tick sends: the switch of each, and how many bytes it has.
pub(crate) fn tell_sent(told: &mut Told, sent: Result<Vec<Sent>, AllocError>) {
    match sent {
        Ok(sent) => each_sent(told, sent.as_slice()),
        Err(_) => told.refuse(),
    }
}

/// The same of these packets.
fn each_sent(told: &mut Told, sent: &[Sent]) {
    if sent.is_empty() {
        told.word("nothing");
    }
    for packet in sent {
        told.field("switch", packet.to());
        told.field("bytes", packet.bytes().len());
    }
}

/// Tells what all counted payments come to, and of each its serial number and its fill number.
pub(crate) fn tell_paid(told: &mut Told, paid: Result<Vec<CountedPayment>, AllocError>) {
    match paid {
        Ok(paid) => each_paid(told, paid.as_slice()),
        Err(_) => told.refuse(),
    }
}

/// The same of these payments.
fn each_paid(told: &mut Told, paid: &[CountedPayment]) {
    told.field("sum", sum(paid));
    for payment in paid {
        told.field("serial", payment.auth().serial());
        told.field("fill", payment.fill().fill);
    }
}

/// What payments come to, in cents.
fn sum(paid: &[CountedPayment]) -> u64 {
    let mut sum: u64 = 0;
    for payment in paid {
        sum = sum.saturating_add(u64::from(payment.amounts().total()));
    }
    sum
}

/// Tells of each entry its number, its code, how many transactions it has, and how many rulings on them.
pub(crate) fn tell_list(told: &mut Told, views: Result<Vec<EntryView>, AllocError>) {
    match views {
        Ok(views) => each_view(told, views.as_slice()),
        Err(_) => told.refuse(),
    }
}

/// The same of these entries.
fn each_view(told: &mut Told, views: &[EntryView]) {
    if views.is_empty() {
        told.word("nothing");
    }
    for view in views {
        told.shown(view.number());
        told.bytes(&view.code());
        told.field("count", view.count());
        told.field("rulings", view.rulings().len());
    }
}

/// Tells the request of an entry and its answer, or that it is open.
pub(crate) fn tell_entry(told: &mut Told, entry: Option<KeptEntry<'_>>) {
    match entry {
        Some(entry) => {
            told.bytes(entry.request);
            match entry.answer {
                Some(answer) => {
                    told.word("=>");
                    told.bytes(answer);
                }
                None => told.word("open"),
            }
        }
        None => told.word("nothing"),
    }
}

/// Tells all that settings of a pharmacy say.
pub(crate) fn tell_settings(told: &mut Told, settings: &PharmacySettings) {
    told.field("again", settings.again());
    told.field("tries", settings.tries());
    told.field("cap", settings.cap());
    told.word("provider");
    told.bytes(&settings.qualifier());
    told.bytes(&settings.provider());
    told.word("switches");
    tell_switches(told, settings.nodes());
}

/// Tells the numbers of switches.
fn tell_switches(told: &mut Told, nodes: &[u16]) {
    for node in nodes {
        told.shown(*node);
    }
}
