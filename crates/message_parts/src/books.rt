//! Cutting books at rest.

ghost use Rattle.std.specs.Prelude.{◌≡◌, List, true, IfOk, OnOk};
ghost use Rattle.message_parts.specs.AtRest.{
  book_told,
  each_told,
  product_told,
  row_told,
  short_length,
  stray_told,
};
ghost use Rattle.message_parts.specs.Added.{Tells, TellsAll};

use crate::cutter::Cutter;
use crate::dissecting::Carried;
use crate::layout::Form;
use crate::marks::Mark;
use crate::part::PartKind;
use crate::records::{count_at, cut_mark, cut_marks, cut_text};
use std::alloc::AllocError;

/// The head of a book.
static BOOK: [(PartKind, usize); 8] = [
    (PartKind::Mark(Mark::Letters), 2),
    (PartKind::Mark(Mark::FormatVersion), 1),
    (PartKind::Mark(Mark::Payer), 2),
    (PartKind::Mark(Mark::FirstSerial), 8),
    (PartKind::Mark(Mark::Fee), 4),
    (PartKind::Mark(Mark::Copay), 4),
    (PartKind::Mark(Mark::ProductCount), 4),
    (PartKind::Mark(Mark::Count), 4),
];

/// Cuts a book: its head, its products, and as many rows as the head says and the bytes have.
pub(crate) fn cut_book(
    cutter: &mut Cutter<'_>,
    carried: &mut Vec<Carried>,
) -> Result<(), AllocError>
    ensures whole { cutter.new.whole ≡ cutter.old.whole }
    ensures told { OnOk result (TellsAll book_told cutter.old cutter.new carried.old.items carried.new.items) }
{
    let products = count_at(cutter.left(), 21);
    let rows = count_at(cutter.left(), 25);
    cut_marks(cutter, BOOK.as_slice())?;
    cut_products(cutter, products)?;
    cut_rows(cutter, carried, rows)
}

/// Cuts this many products of a plan, as far as the bytes have them.
#[tactic(auto, using(crate::proofs::AtRest::each_done, crate::proofs::AtRest::each_end, crate::proofs::AtRest::no_product))]
fn cut_products(cutter: &mut Cutter<'_>, count: u32) -> Result<(), AllocError>
    ensures whole { cutter.new.whole ≡ cutter.old.whole }
    ensures told { OnOk result ((carried : List Carried)
        → Tells (each_told product_told count) true cutter.old cutter.new carried carried) }
{
    for _ in 0..count {
        if cutter.left().is_empty() {
            return Ok(());
        }
        cut_product(cutter)?;
    }
    Ok(())
}

/// Cuts a product, as far as the bytes reach.
fn cut_product(cutter: &mut Cutter<'_>) -> Result<(), AllocError>
    ensures whole { cutter.new.whole ≡ cutter.old.whole }
    ensures told { OnOk result ((carried : List Carried)
        → Tells product_told true cutter.old cutter.new carried carried) }
{
    let size = short_length(cutter.left());
    cut_mark(cutter, Mark::Length, 1)?;
    cut_mark(cutter, Mark::PlanProduct, size)?;
    cut_mark(cutter, Mark::Price, 4)
}

/// Cuts this many rows of a book, as far as the bytes have them.
#[tactic(auto, using(crate::proofs::AtRest::each_next))]
fn cut_rows(
    cutter: &mut Cutter<'_>,
    carried: &mut Vec<Carried>,
    count: u32,
) -> Result<(), AllocError>
    ensures whole { cutter.new.whole ≡ cutter.old.whole }
    ensures told { OnOk result (TellsAll (each_told row_told count stray_told) cutter.old cutter.new
        carried.old.items carried.new.items) }
{
    for _ in 0..count {
        let whole = cut_row(cutter, carried)?;
        if !whole {
            return Ok(());
        }
    }
    Ok(())
}

/// Cuts a row of a book, and says whether all of it was there.
fn cut_row(cutter: &mut Cutter<'_>, carried: &mut Vec<Carried>) -> Result<bool, AllocError>
    ensures whole { cutter.new.whole ≡ cutter.old.whole }
    ensures told { IfOk result (λ whole. Tells row_told whole cutter.old cutter.new
        carried.old.items carried.new.items) }
{
    cut_mark(cutter, Mark::Pharmacy, 2)?;
    cut_mark(cutter, Mark::Number, 8)?;
    let whole = cut_text(cutter, carried, Form::Request)?;
    if !whole {
        return Ok(false);
    }
    cut_text(cutter, carried, Form::Answer)
}

/// The length in the first byte, and 0 where there is none.
fn short_length(bytes: &[u8]) -> usize
    ensures { result ≡ short_length bytes.now }
{
    match bytes {
        [first, ..] => usize::from(*first),
        [] => 0,
    }
}
