//! What stands before the elements of a picture.

ghost use Rattle.std.specs.Prelude.{◌≡◌, ◌++◌, codes, OnOk};
ghost use Rattle.svg_text.specs.Framing.{framed};
ghost use Rattle.svg_text.specs.Numbers.{start_text};
ghost use Rattle.svg_text.specs.Picture.{root_style, size_numbers, view_text, told_text, arrowhead, head_text};

use crate::escaping::put_escaped;
use crate::numbers::{Name, put_start, sized};
use crate::shapes::Size;
use input_text::put_decimal;
use std::alloc::AllocError;

/// What frames a picture: its size, and for screen readers its title and its description.
#[derive(Drop)]
pub struct Frame<'a> {
    pub size: Size,
    pub title: &'a [u8],
    pub description: &'a [u8],
}

/// Appends what stands before the elements.
#[tactic(auto, unfolding(crate::specs::Picture::head_text), using(crate::proofs::Joining::four_join))]
pub(crate) fn put_head(out: &mut Vec<u8>, frame: &Frame<'_>) -> Result<(), AllocError>
    ensures { OnOk result (out.new.items ≡ out.old.items ++ head_text (framed frame.now)) }
{
    put_root(out, frame.size)?;
    put_view(out, frame.size)?;
    put_told(out, frame.title, frame.description)?;
    put_arrowhead(out)?;
    Ok(())
}

/// Appends the beginning of the root element.
fn put_root(out: &mut Vec<u8>, size: Size) -> Result<(), AllocError>
    ensures { OnOk result (out.new.items ≡ out.old.items ++ start_text (codes "svg") root_style (size_numbers size)) }
{
    let sides = [
        sized(Name::Width, size.width),
        sized(Name::Height, size.height),
    ];
    put_start(out, b"svg", root_style(), &sides)
}

/// What the root element is to a browser and to a screen reader.
#[tactic(auto, unfolding(crate::specs::Picture::root_style))]
fn root_style() -> &'static [u8]
    ensures { result.now ≡ root_style }
{
    b" xmlns=\"http://www.w3.org/2000/svg\" role=\"img\" aria-labelledby=\"title description\" font-family=\"monospace\" font-size=\"14\""
}

/// Appends which part of the picture is shown, and the end of the root element's beginning.
fn put_view(out: &mut Vec<u8>, size: Size) -> Result<(), AllocError>
    ensures { OnOk result (out.new.items ≡ out.old.items ++ view_text size) }
{
    out.extend_from_slice(b" viewBox=\"0 0 ")?;
    put_decimal(out, size.width)?;
    out.extend_from_slice(b" ")?;
    put_decimal(out, size.height)?;
    out.extend_from_slice(b"\">\n")?;
    Ok(())
}

/// Appends a title and a description.
fn put_told(out: &mut Vec<u8>, title: &[u8], description: &[u8]) -> Result<(), AllocError>
    ensures { OnOk result (out.new.items ≡ out.old.items ++ told_text title.now description.now) }
{
    out.extend_from_slice(b"<title id=\"title\">")?;
    put_escaped(out, title)?;
    out.extend_from_slice(b"</title>\n<desc id=\"description\">")?;
    put_escaped(out, description)?;
    out.extend_from_slice(b"</desc>\n")?;
    Ok(())
}

/// Appends the arrowhead that lines end in.
fn put_arrowhead(out: &mut Vec<u8>) -> Result<(), AllocError>
    ensures { OnOk result (out.new.items ≡ out.old.items ++ arrowhead) }
{
    out.extend_from_slice(
        b"<defs><marker id=\"head\" viewBox=\"0 0 10 10\" refX=\"9\" refY=\"5\" markerWidth=\"8\" markerHeight=\"8\" orient=\"auto\">",
    )?;
    out.extend_from_slice(b"<path d=\"M0 1L10 5L0 9Z\"/></marker></defs>\n")?;
    Ok(())
}
