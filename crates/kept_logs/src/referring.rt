//! References in what a log begins with.

ghost use Rattle.std.specs.Prelude.{◌≡◌, ◌++◌, IfOk, OnOk};
ghost use Rattle.std.specs.List.{AllByRecursion, flat_map};
ghost use Rattle.std.specs.Option.{option_map};
ghost use Rattle.codec.specs.Codecs.{times};
ghost use Rattle.kept_logs.specs.Rests.{reference_codec, references_codec};

use crate::references::Reference;
use codec::{put_text, put_u64, take_text, take_u64};
use octets::Octets;
use std::alloc::{AllocError, Global};

/// Puts how many references there are, and these.
pub(crate) fn put_references(out: &mut Vec<u8>, references: &[Reference]) -> Result<(), AllocError>
    ensures text { OnOk result (out.new.items ≡ out.old.items ++ references_codec.text references.now) }
    ensures fits { OnOk result (references_codec.Fits references.now) }
{
    put_u64(out, references.len() as u64)?;
    put_each(out, references)
}

/// Puts references, one after the other.
fn put_each(out: &mut Vec<u8>, references: &[Reference]) -> Result<(), AllocError>
    ensures text { OnOk result (out.new.items ≡ out.old.items ++ flat_map reference_codec.text references.now) }
    ensures fits { OnOk result (AllByRecursion reference_codec.Fits references.now) }
{
    for one in references {
        put_reference(out, one)?;
    }
    Ok(())
}

/// Puts a reference: its name, and the number.
#[tactic(auto, unfolding(crate::specs::Rests::reference_codec))]
fn put_reference(out: &mut Vec<u8>, one: &Reference) -> Result<(), AllocError>
    ensures text { OnOk result (out.new.items ≡ out.old.items ++ reference_codec.text one.now) }
    ensures fits { OnOk result (reference_codec.Fits one.now) }
{
    put_text(out, one.name())?;
    put_u64(out, one.number())
}

/// The references at the front, and what follows them; none where they are cut off.
pub(crate) fn take_references(
    alloc: Global,
    bytes: &[u8],
) -> Result<Option<(Vec<Reference>, &[u8])>, AllocError>
    ensures { IfOk result (λ o. option_map (λ taken. (taken.0.items, taken.1.now)) o ≡ references_codec.at bytes.now) }
{
    let Some((count, rest)) = take_u64(bytes) else {
        return Ok(None);
    };
    take_each(alloc, count, rest)
}

/// This many references at the front, and what follows them; none where they are cut off.
fn take_each(
    alloc: Global,
    count: u64,
    bytes: &[u8],
) -> Result<Option<(Vec<Reference>, &[u8])>, AllocError>
    ensures { IfOk result (λ o. option_map (λ taken. (taken.0.items, taken.1.now)) o
        ≡ times reference_codec count bytes.now) }
{
    let mut all = Vec::new(alloc);
    let mut rest = bytes;
    for _ in 0..count {
        let Some((one, after)) = take_reference(alloc, rest)? else {
            return Ok(None);
        };
        all.push(one)?;
        rest = after;
    }
    Ok(Some((all, rest)))
}

/// A reference at the front, and what follows it; none where it is cut off.
#[tactic(auto, unfolding(crate::specs::Rests::reference_codec))]
fn take_reference(alloc: Global, bytes: &[u8]) -> Result<Option<(Reference, &[u8])>, AllocError>
    ensures { IfOk result (λ o. option_map (λ taken. (taken.0, taken.1.now)) o ≡ reference_codec.at bytes.now) }
{
    let Some((name, rest)) = take_text(bytes) else {
        return Ok(None);
    };
    let Some((number, rest)) = take_u64(rest) else {
        return Ok(None);
    };
    let name = Octets::copy_of(alloc, name)?;
    Ok(Some((Reference::new(name, number), rest)))
}
