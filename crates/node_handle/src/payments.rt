//! The payments of a node, as one list: those that a pharmacy counts, or those of a payer's book.

ghost use Rattle.std.specs.Prelude.{◌≡◌, map, Some, IfOk};
ghost use Rattle.node_logged.specs.Setting.{context_of};
ghost use Rattle.node_service.specs.Payments.{payments_of};
ghost use Rattle.node_handle.specs.Payments.{Lists, ListsPayments, payments_in, plain};

use crate::handle::NodeHandle;
use crate::hosted::Hosted;
use crate::refusal::Refusal;
use node_service::{NodePayment, Service, payments_of};
use std::alloc::{AllocError, Global};

/// A payment in plain numbers and bytes, as C has it.
#[repr(C)]
#[derive(Clone, Copy)]
pub struct PlainPayment {
    /// The authorization's (503-F3) serial at its payer.
    pub serial: u64,
    /// The prescription (402-D2).
    pub prescription: u64,
    /// The number of the request that reversed it; 0 where it stands.
    pub reversed_number: u64,
    /// The ingredient cost paid, in cents.
    pub cost: u32,
    /// The dispensing fee paid, in cents.
    pub fee: u32,
    /// What the patient pays, in cents.
    pub copay: u32,
    /// What the plan pays, in cents.
    pub total: u32,
    /// The authorization's payer.
    pub payer: u16,
    /// The pharmacy of the request that reversed it; 0 where it stands.
    pub reversed_pharmacy: u16,
    /// The BIN number (101-A1).
    pub bin: [u8; 6],
    /// The processor control number (104-A4).
    pub pcn: [u8; 10],
    /// The service provider's qualifier (202-B2).
    pub qualifier: [u8; 2],
    /// The service provider (201-B1).
    pub provider: [u8; 15],
    /// The fill number (403-D3).
    pub fill_number: u8,
}

impl NodeHandle {
    /// Copies the payments that a pharmacy counts, or those of a payer's book with what reversed them; a switch has none.
    ///
    /// # Errors
    /// `ShortBuffer`, with the count that is wanted; `Closed`, `Unsynced` where not all is on disk, or `OutOfMemory`. Then the
    /// buffer is as it was.
    pub fn payments(
        &mut self,
        alloc: Global,
        buffer: &mut [PlainPayment],
        count: &mut usize,
    ) -> Result<(), Refusal>
        ensures kept { self.new.part.node ≡ self.old.part.node }
        ensures copied { ListsPayments self.old.part.node result buffer.old buffer.new count.old count.new }
    {
        if !self.held {
            return Err(Refusal::Closed);
        }
        let node = self.take(alloc);
        let told = settled_payments(alloc, &*node, buffer, count);
        self.put(node);
        told
    }
}

/// Copies the payments of a node, where all is on disk.
fn settled_payments(
    alloc: Global,
    node: &Hosted,
    buffer: &mut [PlainPayment],
    count: &mut usize,
) -> Result<(), Refusal>
    ensures { ListsPayments (Some node.now) result buffer.old buffer.new count.old count.new }
{
    match node.settled() {
        Ok(service) => match plain_payments(alloc, service) {
            Ok(list) => copy_list(list.as_slice(), buffer, count),
            Err(_) => Err(Refusal::OutOfMemory),
        },
        Err(why) => Err(why),
    }
}

/// Copies a list to the start of a buffer, where it has room for it, and says how many there are.
fn copy_list(
    list: &[PlainPayment],
    buffer: &mut [PlainPayment],
    count: &mut usize,
) -> Result<(), Refusal>
    ensures { Lists (Some list.now) result buffer.old buffer.new count.old count.new }
{
    *count = list.len();
    if buffer.len() < list.len() {
        return Err(Refusal::ShortBuffer);
    }
    buffer[..list.len()].copy_from_slice(list);
    Ok(())
}

/// The payments of a node, in plain numbers and bytes.
fn plain_payments(alloc: Global, node: &Service) -> Result<Vec<PlainPayment>, AllocError>
    ensures { IfOk result (λ list. list.items ≡ payments_in node.now) }
{
    let payments = node_payments(alloc, node)?;
    plain_list(alloc, payments.as_slice())
}

/// The payments of a node.
fn node_payments(alloc: Global, node: &Service) -> Result<Vec<NodePayment>, AllocError>
    ensures { IfOk result (λ list. list.items ≡ payments_of (context_of node.now.settings) node.now.state) }
{
    payments_of(alloc, node.state())
}

/// Payments in plain numbers and bytes.
fn plain_list(alloc: Global, payments: &[NodePayment]) -> Result<Vec<PlainPayment>, AllocError>
    ensures { IfOk result (λ list. list.items ≡ map plain payments.now) }
{
    let mut list = Vec::new(alloc);
    for payment in payments {
        list.push(plain(payment))?;
    }
    Ok(list)
}

/// A payment in plain numbers and bytes.
fn plain(payment: &NodePayment) -> PlainPayment
    ensures { result ≡ plain payment.now }
{
    let auth = payment.auth;
    let of = payment.fill;
    let amounts = payment.amounts;
    let bin = of.bin;
    let pcn = of.pcn;
    let qualifier = of.qualifier;
    let provider = of.provider;
    PlainPayment {
        serial: auth.serial(),
        prescription: of.prescription,
        reversed_number: payment.reversed_number,
        cost: amounts.cost(),
        fee: amounts.fee(),
        copay: amounts.copay(),
        total: amounts.total(),
        payer: auth.payer(),
        reversed_pharmacy: payment.reversed_pharmacy,
        bin,
        pcn,
        qualifier,
        provider,
        fill_number: of.fill,
    }
}
