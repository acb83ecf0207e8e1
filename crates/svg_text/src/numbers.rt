//! Numbers as attributes of an element.

ghost use Rattle.std.specs.Prelude.{◌≡◌, ◌++◌, flat_map, OnOk};
ghost use Rattle.svg_text.specs.Numbers.{name_text, number_text, start_text};

use input_text::put_decimal;
use std::alloc::AllocError;

/// The name of an attribute whose value is a number.
#[derive(Clone, Copy, PartialEq, Eq)]
pub(crate) enum Name {
    X,
    Y,
    X1,
    Y1,
    X2,
    Y2,
    Width,
    Height,
}

/// An attribute whose value is a number, in pixels.
#[derive(Clone, Copy, PartialEq, Eq)]
pub(crate) struct Number {
    pub(crate) name: Name,
    pub(crate) value: u64,
}

/// An attribute.
pub(crate) fn sized(name: Name, value: u64) -> Number
    ensures { result ≡ record { name = name; value = value } }
{
    Number { name, value }
}

/// Appends the beginning of an element: its name, what says how it looks, and numbers.
#[tactic(auto, unfolding(crate::specs::Numbers::start_text), using(crate::proofs::Joining::four_join))]
pub(crate) fn put_start(
    out: &mut Vec<u8>,
    element: &[u8],
    style: &[u8],
    numbers: &[Number],
) -> Result<(), AllocError>
    ensures { OnOk result (out.new.items ≡ out.old.items ++ start_text element.now style.now numbers.now) }
{
    out.extend_from_slice(b"<")?;
    out.extend_from_slice(element)?;
    out.extend_from_slice(style)?;
    put_numbers(out, numbers)?;
    Ok(())
}

/// Appends numbers as attributes.
fn put_numbers(out: &mut Vec<u8>, numbers: &[Number]) -> Result<(), AllocError>
    ensures { OnOk result (out.new.items ≡ out.old.items ++ flat_map number_text numbers.now) }
{
    for number in numbers {
        put_number(out, *number)?;
    }
    Ok(())
}

/// Appends a number as an attribute.
#[tactic(auto, unfolding(crate::specs::Numbers::number_text), using(crate::proofs::Joining::three_join))]
fn put_number(out: &mut Vec<u8>, number: Number) -> Result<(), AllocError>
    ensures { OnOk result (out.new.items ≡ out.old.items ++ number_text number) }
{
    out.extend_from_slice(name_text(number.name))?;
    put_decimal(out, number.value)?;
    out.extend_from_slice(b"\"")?;
    Ok(())
}

/// An attribute up to its value.
fn name_text(name: Name) -> &'static [u8]
    ensures { result.now ≡ name_text name }
{
    match name {
        Name::X => b" x=\"",
        Name::Y => b" y=\"",
        Name::X1 => b" x1=\"",
        Name::Y1 => b" y1=\"",
        Name::X2 => b" x2=\"",
        Name::Y2 => b" y2=\"",
        Name::Width => b" width=\"",
        Name::Height => b" height=\"",
    }
}
