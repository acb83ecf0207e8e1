//! The rows of changes of terms.

ghost use Rattle.std.specs.Prelude.{◌≡◌, ◌∷◌, [], map, option_map, OnOk};
ghost use Rattle.table_text.specs.Adding.{Adds, AddsRows};
ghost use Rattle.table_text.specs.Rows.{head_text};
ghost use Rattle.table_text.specs.declared.layout.Style.TheVariants.{Csv};
ghost use Rattle.log_audit.specs.Changes.{change_seen, to_seen};
ghost use Rattle.log_audit.specs.Following.{had_after, had_then};
ghost use Rattle.log_audit.specs.Terms.{opening_terms, terms_names, terms_of, terms_row, terms_rows};

use crate::revisions::changes::{Change, To};
use std::alloc::AllocError;
use table_text::{Field, Style, put_head, put_row};
use world_setup::WorldSettings;

/// The terms of a payer's plan, in cents.
#[derive(Clone, Copy)]
pub(crate) struct Terms {
    pub(crate) fee: u64,
    pub(crate) copay: u64,
}

/// Appends the names of the columns, of which that of the place is this one.
pub(crate) fn put_terms_names(out: &mut Vec<u8>, name: &[u8]) -> Result<(), AllocError>
    ensures { OnOk result (Adds out.old out.new (head_text (terms_names name.now))) }
{
    put_head(
        out,
        &[
            b"payer",
            name,
            b"fee_before_cents",
            b"copay_before_cents",
            b"fee_after_cents",
            b"copay_after_cents",
        ],
    )
}

/// Appends the row of a change after these, if it is one of terms.
#[tactic(auto, using(crate::proofs::Changing::nothing_told))]
pub(crate) fn put_terms_change(
    out: &mut Vec<u8>,
    settings: &WorldSettings,
    name: &'static [u8],
    before: &[Change<'_>],
    change: &Change<'_>,
) -> Result<(), AllocError>
    ensures { OnOk result (AddsRows Csv out.old out.new
        (terms_rows settings.now name.now (map change_seen before.now) (change_seen change.now))) }
{
    match terms_of(change.to) {
        Some(after) => {
            let opening = opening_terms(settings, change.number);
            let before = terms_after(change.number, opening, before);
            put_terms(out, name, change, before, after)
        }
        None => Ok(()),
    }
}

/// Appends the row of a change of these terms, where they are known, to those.
#[tactic(auto, unfolding(crate::specs::Terms::terms_row))]
fn put_terms(
    out: &mut Vec<u8>,
    name: &'static [u8],
    change: &Change<'_>,
    before: Option<Terms>,
    after: Terms,
) -> Result<(), AllocError>
    ensures { OnOk result (AddsRows Csv out.old out.new
        (terms_row name.now change.now.number change.now.place before after ∷ [])) }
{
    let fields = [
        Field::number(b"payer", change.number),
        Field::number(name, change.place),
        Field::number_or_nothing(b"fee_before_cents", fee_in(before)),
        Field::number_or_nothing(b"copay_before_cents", copay_in(before)),
        Field::number(b"fee_after_cents", after.fee),
        Field::number(b"copay_after_cents", after.copay),
    ];
    put_row(out, Style::Csv, &fields)
}

/// The fee, where terms are known.
fn fee_in(terms: Option<Terms>) -> Option<u64>
    ensures { result ≡ option_map (λ t. t.fee) terms }
{
    match terms {
        Some(terms) => Some(terms.fee),
        None => None,
    }
}

/// The copay, where terms are known.
fn copay_in(terms: Option<Terms>) -> Option<u64>
    ensures { result ≡ option_map (λ t. t.copay) terms }
{
    match terms {
        Some(terms) => Some(terms.copay),
        None => None,
    }
}

/// The terms under the settings of a payer, where there is such a payer.
fn opening_terms(settings: &WorldSettings, payer: u64) -> Option<Terms>
    ensures { result ≡ opening_terms settings.now payer }
{
    match settings.payers.get((payer as usize).saturating_sub(1)) {
        Some(payer) => Some(Terms {
            fee: u64::from(payer.plan.fee()),
            copay: u64::from(payer.plan.copay()),
        }),
        None => None,
    }
}

/// The terms of a payer that had these before, after some changes.
fn terms_after(payer: u64, terms: Option<Terms>, changes: &[Change<'_>]) -> Option<Terms>
    ensures { result ≡ had_after terms_of payer terms (map change_seen changes.now) }
{
    let mut then = terms;
    for change in changes {
        then = terms_then(payer, then, change);
    }
    then
}

/// The same after one change.
fn terms_then(payer: u64, terms: Option<Terms>, change: &Change<'_>) -> Option<Terms>
    ensures { result ≡ had_then terms_of payer terms (change_seen change.now) }
{
    if change.number == payer {
        terms_of(change.to).or(terms)
    } else {
        terms
    }
}

/// The terms of a change, if it is one of terms.
fn terms_of(to: To<'_>) -> Option<Terms>
    ensures { result ≡ terms_of (to_seen to.entry) }
{
    match to {
        To::Price { .. } => None,
        To::Terms(terms) => Some(terms),
        To::Rule(_) => None,
        To::Cap(_) => None,
    }
}
