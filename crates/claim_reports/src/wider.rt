//! Records of CSV that are written with two fields more.

ghost use Rattle.std.specs.Prelude.{◌≡◌, ◌<◌, ◌++◌, ◌∷◌, [], get_or, length, map, IfErr, IfOk, OnOk};
ghost use Rattle.csv.specs.Records.{fields_of};
ghost use Rattle.claim_reports.specs.declared.fault.ReportFault.TheVariants.{OutOfMemory};
ghost use Rattle.csv.specs.Writing.{row_text, default_writer};
ghost use Rattle.claim_reports.specs.Wider.{wider_text};

use crate::fault::ReportFault;
use csv::{ByteRecord, WriterBuilder};
use std::alloc::{AllocError, Global};

/// Appends the line of a record, with two fields after its own.
pub(crate) fn put_wider(
    out: &mut Vec<u8>,
    row: &ByteRecord,
    one: &[u8],
    two: &[u8],
) -> Result<(), ReportFault>
    ensures adds { OnOk result (out.new.items ≡ out.old.items ++ wider_text (fields_of row.now) one.now two.now) }
    ensures memory { IfErr result (λ e. e ≡ OutOfMemory) }
{
    let alloc = *out.allocator();
    let fields = wider_fields(alloc, row, one, two)?;
    let text = line_of(alloc, fields.as_slice())?;
    out.extend_from_slice(text.as_slice())?;
    Ok(())
}

/// The fields of a record, and two after them.
fn wider_fields<'a>(
    alloc: Global,
    row: &'a ByteRecord,
    one: &'a [u8],
    two: &'a [u8],
) -> Result<Vec<&'a [u8]>, AllocError>
    ensures { IfOk result (λ fields. map (λ f. f.now) fields.items ≡ fields_of row.now ++ one.now ∷ two.now ∷ []) }
{
    let mut fields = Vec::new(alloc);
    for place in 0..row.len() {
        fields.push(field_at(row, place))?;
    }
    fields.push(one)?;
    fields.push(two)?;
    Ok(fields)
}

/// The field at a place, which the record has.
#[tactic(auto, using(crate::proofs::Lines::there, crate::proofs::Lines::not_there))]
pub(crate) fn field_at(row: &ByteRecord, place: usize) -> &[u8]
    ensures { result.now ≡ get_or (fields_of row.now) place [] }
{
    match row.get(place) {
        Some(field) => field,
        None => b"",
    }
}

/// The line of some fields.
fn line_of(alloc: Global, fields: &[&[u8]]) -> Result<Vec<u8>, ReportFault>
    ensures made { IfOk result (λ text. text.items ≡ row_text default_writer (map (λ f. f.now) fields.now)) }
    ensures memory { IfErr result (λ e. e ≡ OutOfMemory) }
{
    let mut writer = WriterBuilder::new().from_writer(Vec::new(alloc));
    if writer.write_fields(fields).is_err() {
        return Err(ReportFault::OutOfMemory);
    }
    match writer.into_inner() {
        Ok(text) => Ok(text),
        Err(_) => Err(ReportFault::OutOfMemory),
    }
}
