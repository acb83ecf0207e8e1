//! Answers for a pharmacy's entries, by tables: those that were sent to it, and those that its callers were told.

ghost use Rattle.std.specs.Prelude.{◌≡◌, ◌++◌, drop, map, Some, IfOk, OnOk};
ghost use Rattle.csv.specs.Records.{fields_of};
ghost use Rattle.claim_reports.specs.Tables.{given};
ghost use Rattle.claim_reports.specs.Causes.{RefusesFor, bad_at, records_of};
ghost use Rattle.claim_reports.specs.Received.{packet_columns_in, receipt_columns_in, packets_missing, receipts_missing, bad_spelling, answer_bad, sent_bad, told_bad, receipt_bad, packets_cause, receipts_cause, spelled_in, node_name, answer_of, is_answer_to, sent_in, receipt_of, receipt_in, AreSent, AreReceipts};

use crate::fault::ReportFault;
use crate::naming::Name;
use crate::reading::Columns;
use crate::table::{Column, Table, TableRow};
use input_text::{PrintedFault, put_decimal, unprint};
use std::alloc::{AllocError, Global};
use std::marker::Model;

/// How many bytes the head of an envelope has.
const HEAD: usize = 18;

/// An answer, and the number of the entry that it is for.
#[derive(Drop)]
pub(crate) struct Reply {
    number: u64,
    bytes: Vec<u8>,
}

impl Model for Reply {
    ghost use Rattle.claim_reports.specs.Replies.{Reply as Seen};

    ghost Value = { Seen };

    ghost view = { λ r. record { number = r.number; bytes = r.bytes.items } };
}

/// The columns of a table of packets.
#[derive(Clone, Copy)]
pub(crate) struct PacketColumns {
    to: Column,
    carries: Column,
    pharmacy: Column,
    number: Column,
    bytes: Column,
}

/// The columns of a table of receipts.
#[derive(Clone, Copy)]
pub(crate) struct ReceiptColumns {
    pharmacy: Column,
    number: Column,
    answer: Column,
}

/// A pharmacy, and the name of its node.
#[derive(Drop)]
pub(crate) struct Addressee {
    node: Vec<u8>,
    pharmacy: u64,
}

impl Model for Addressee {
    ghost use Rattle.claim_reports.specs.Replies.{Addressee as Seen};

    ghost Value = { Seen };

    ghost view = { λ to. record { node = to.node.items; pharmacy = to.pharmacy } };
}

impl Addressee {
    /// The pharmacy of a number.
    pub(crate) fn new(alloc: Global, pharmacy: u64) -> Result<Addressee, AllocError>
        ensures { IfOk result (λ to. to ≡ record { node = node_name pharmacy; pharmacy = pharmacy }) }
    {
        let node = node_name(alloc, pharmacy)?;
        Ok(Addressee { node, pharmacy })
    }
}

impl Reply {
    /// An answer for an entry.
    fn new(number: u64, bytes: Vec<u8>) -> Reply
        ensures { result ≡ record { number = number; bytes = bytes.items } }
    {
        Reply { number, bytes }
    }

    /// The number of the entry.
    pub(crate) fn number(&self) -> u64
        ensures { result ≡ self.now.number }
    {
        self.number
    }

    /// The bytes of the answer.
    pub(crate) fn bytes(&self) -> &[u8]
        ensures { result.now ≡ self.now.bytes }
    {
        self.bytes.as_slice()
    }
}

/// The name of a pharmacy's node.
fn node_name(alloc: Global, pharmacy: u64) -> Result<Vec<u8>, AllocError>
    ensures { IfOk result (λ text. text.items ≡ node_name pharmacy) }
{
    let mut text = Vec::new(alloc);
    text.extend_from_slice(b"ph")?;
    put_decimal(&mut text, pharmacy)?;
    Ok(text)
}

/// The bytes that a column spells.
fn bytes_of(alloc: Global, row: &TableRow<'_>, column: Column) -> Result<Vec<u8>, ReportFault>
    ensures read { IfOk result (λ bytes. spelled_in column.place (fields_of row.now.record.now) ≡ Some bytes.items) }
    ensures refuses { RefusesFor result
        (bad_at row.now.table row.now.number (bad_spelling column (fields_of row.now.record.now))) }
{
    match unprint(alloc, row.text(column)) {
        Ok(bytes) => Ok(bytes),
        Err(PrintedFault::OutOfMemory) => Err(ReportFault::OutOfMemory),
        Err(PrintedFault::BadByte(_)) => Err(row.bad(column)),
    }
}

/// Bytes without the head of an envelope.
fn behind_head(bytes: &[u8]) -> &[u8]
    ensures { result.now ≡ drop 18 bytes.now }
{
    if bytes.len() < HEAD {
        &[]
    } else {
        &bytes[HEAD..]
    }
}

impl Columns for PacketColumns {
    type Row = Reply;

    type Whose = Addressee;

    ghost columns_in = { λ _ records. packet_columns_in records };

    ghost missing = { λ _ table records. packets_missing table records };

    ghost row_in = { λ columns to row. sent_in columns to.node to.pharmacy row };

    ghost bad = { λ to columns row. sent_bad to.node to.pharmacy columns row };

    /// Those of a table.
    #[tactic(auto, unfolding(crate::specs::Received::packets_missing))]
    fn of(table: &Table, _whose: &Addressee) -> Result<PacketColumns, ReportFault> {
        Ok(PacketColumns {
            to: table.column(Name::To)?,
            carries: table.column(Name::Carries)?,
            pharmacy: table.column(Name::Pharmacy)?,
            number: table.column(Name::Number)?,
            bytes: table.column(Name::Bytes)?,
        })
    }

    /// The answer of a packet to the node of a pharmacy, where it is one of the pharmacy's own.
    #[tactic(auto, unfolding(crate::specs::Received::sent_in, crate::specs::Received::sent_bad))]
    fn row(
        &self,
        alloc: Global,
        row: &TableRow<'_>,
        to: &Addressee,
    ) -> Result<Option<Reply>, ReportFault> {
        if !self.is_answer_to(row, to.node.as_slice()) {
            return Ok(None);
        }
        if row.number(self.pharmacy)? != to.pharmacy {
            return Ok(None);
        }
        Ok(Some(self.answer(alloc, row)?))
    }
}

impl PacketColumns {
    /// Whether a packet carries an answer to a node.
    fn is_answer_to(&self, row: &TableRow<'_>, node: &[u8]) -> bool
        ensures { result ≡ is_answer_to self.now node.now (fields_of row.now.record.now) }
    {
        row.text(self.carries) == b"answer".as_slice() && row.text(self.to) == node
    }
    /// The answer of a packet.
    #[tactic(auto, unfolding(crate::specs::Received::answer_bad))]
    fn answer(&self, alloc: Global, row: &TableRow<'_>) -> Result<Reply, ReportFault>
        ensures read { IfOk result (λ answer. answer_of self.now (fields_of row.now.record.now) ≡ Some answer) }
        ensures refuses { RefusesFor result
            (bad_at row.now.table row.now.number (answer_bad self.now (fields_of row.now.record.now))) }
    {
        let number = row.number(self.number)?;
        let bytes = bytes_of(alloc, row, self.bytes)?;
        let answer = Vec::from_slice(alloc, behind_head(bytes.as_slice()))?;
        Ok(Reply::new(number, answer))
    }
}

impl Columns for ReceiptColumns {
    type Row = Reply;

    type Whose = u64;

    ghost columns_in = { λ _ records. receipt_columns_in records };

    ghost missing = { λ _ table records. receipts_missing table records };

    ghost row_in = { λ columns pharmacy row. receipt_in columns pharmacy row };

    ghost bad = { λ pharmacy columns row. receipt_bad pharmacy columns row };

    /// Those of a table.
    #[tactic(auto, unfolding(crate::specs::Received::receipts_missing))]
    fn of(table: &Table, _whose: &u64) -> Result<ReceiptColumns, ReportFault> {
        Ok(ReceiptColumns {
            pharmacy: table.column(Name::Pharmacy)?,
            number: table.column(Name::Number)?,
            answer: table.column(Name::Answer)?,
        })
    }

    /// What a caller of a pharmacy was told, by a row of it.
    #[tactic(auto, unfolding(crate::specs::Received::receipt_in, crate::specs::Received::receipt_bad))]
    fn row(
        &self,
        alloc: Global,
        row: &TableRow<'_>,
        pharmacy: &u64,
    ) -> Result<Option<Reply>, ReportFault> {
        if row.number(self.pharmacy)? != *pharmacy {
            return Ok(None);
        }
        Ok(Some(self.told(alloc, row)?))
    }
}

impl ReceiptColumns {
    /// What a caller was told.
    #[tactic(auto, unfolding(crate::specs::Received::told_bad))]
    fn told(&self, alloc: Global, row: &TableRow<'_>) -> Result<Reply, ReportFault>
        ensures read { IfOk result (λ told. receipt_of self.now (fields_of row.now.record.now) ≡ Some told) }
        ensures refuses { RefusesFor result
            (bad_at row.now.table row.now.number (told_bad self.now (fields_of row.now.record.now))) }
    {
        let number = row.number(self.number)?;
        let bytes = bytes_of(alloc, row, self.answer)?;
        Ok(Reply::new(number, bytes))
    }
}
