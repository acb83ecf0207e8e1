//! The settings of a switch and of a payer that tables of the arrays `switch` and `payer` spell.

ghost use Rattle.std.specs.Prelude.{◌≡◌, ◌≤◌, None, Some, cond, codes, IfOk};
ghost use Rattle.std.specs.Result.{result_ok};
ghost use Rattle.toml.specs.Data.{get_member};
ghost use Rattle.toml.specs.View.{view, table_view};
ghost use Rattle.claim_model.specs.Limits.{widest};
ghost use Rattle.payer_book.specs.Settings.{settings_within};
ghost use Rattle.plan_rules.specs.Terms.{largest};
ghost use Rattle.world_settings.specs.Keys.{keys_among};
ghost use Rattle.world_settings.specs.Payers.{answering, asked, asks_of, bare_plan, cap_taken, payer_in, payer_keys, payer_of, payer_with, priced, switch_in, switch_of, with_price, with_prices};

use crate::keys::has_only;
use crate::lists::Reader;
use crate::values::{number_at, number_or, value_at, word, word_at};
use claim_model::Limits;
use overpunch::Amount;
use payer_book::BookSettings;
use plan_rules::{Plan, PlanFault};
use std::alloc::{AllocError, Global};
use switch_node::SwitchSettings;
use toml::{Table, Value};
use world_setup::PayerSettings;

/// The largest dispensing fee and copay of a plan, in cents.
const MOST_CENTS: u64 = 99_999_999;
/// The serial number of a book's first payment where none is given (own).
const FIRST_SERIAL: u64 = 1;

/// Reads switches.
#[derive(Clone, Copy)]
pub(crate) struct Switches;

/// Reads payers.
#[derive(Clone, Copy)]
pub(crate) struct Payers {
    /// Whether a payer may ask.
    pub(crate) wide: bool,
    /// Whether answers carry what advices say beside their rulings.
    pub(crate) carries: bool,
}

impl Reader<SwitchSettings> for Switches {
    ghost spelled = { λ _. switch_in };

    fn read(&self, _alloc: Global, value: &Value) -> Result<Option<SwitchSettings>, AllocError> {
        match value.as_table() {
            Some(table) => Ok(switch_of(table)),
            None => Ok(None),
        }
    }
}

impl Reader<PayerSettings> for Payers {
    ghost spelled = { λ reader. payer_in reader.wide reader.carries };

    fn read(&self, alloc: Global, value: &Value) -> Result<Option<PayerSettings>, AllocError> {
        match value.as_table() {
            Some(table) => payer_of(alloc, self.wide, self.carries, table),
            None => Ok(None),
        }
    }
}

/// The settings of a switch that a table spells.
fn switch_of(table: &Table) -> Option<SwitchSettings>
    ensures { result ≡ switch_of (table_view table.now) }
{
    if !has_only(table, &["cap"]) {
        return None;
    }
    match word_at(table, "cap") {
        Some(cap) => cap_taken(cap),
        None => None,
    }
}

/// The settings of a switch with this cap, where a switch takes it.
fn cap_taken(cap: u32) -> Option<SwitchSettings>
    ensures { result ≡ cap_taken cap }
{
    match SwitchSettings::within(Limits::widest(), cap) {
        Ok(settings) => Some(settings),
        Err(_) => None,
    }
}

/// The settings of a payer that a table spells, which may ask where settings are wide.
fn payer_of(
    alloc: Global,
    wide: bool,
    carries: bool,
    table: &Table,
) -> Result<Option<PayerSettings>, AllocError>
    ensures { IfOk result (λ settings. settings ≡ payer_of wide carries (table_view table.now)) }
{
    if !has_payer_keys(wide, table) {
        return Ok(None);
    }
    payer_with(alloc, carries, table)
}

/// Whether each key of a table is one of a payer's.
fn has_payer_keys(wide: bool, table: &Table) -> bool
    ensures { result ≡ keys_among (payer_keys wide) (table_view table.now) }
{
    if wide {
        return has_only(table, &["asks", "fee", "copay", "cap", "serial", "prices"]);
    }
    has_only(table, &["fee", "copay", "cap", "serial", "prices"])
}

/// The settings that the values of a table spell, where answers are wide or not.
#[tactic(auto, unfolding(crate::specs::Payers::payer_with))]
fn payer_with(
    alloc: Global,
    carries: bool,
    table: &Table,
) -> Result<Option<PayerSettings>, AllocError>
    ensures { IfOk result (λ settings. settings ≡ payer_with carries (table_view table.now)) }
{
    let Some(fee) = number_at(table, "fee", MOST_CENTS) else {
        return Ok(None);
    };
    let Some(copay) = number_at(table, "copay", MOST_CENTS) else {
        return Ok(None);
    };
    let Some(cap) = word_at(table, "cap") else {
        return Ok(None);
    };
    let Some(serial) = number_or(table, "serial", FIRST_SERIAL, u64::MAX) else {
        return Ok(None);
    };
    let Some(book) = book_taken(serial, cap) else {
        return Ok(None);
    };
    let Some(book) = asks_of(book, table) else {
        return Ok(None);
    };
    let bare = bare_plan(alloc, fee, copay);
    match with_prices(bare, table)? {
        Some(plan) => Ok(Some(PayerSettings::new(answering(carries, book), plan))),
        None => Ok(None),
    }
}

/// The settings of a book with this first serial number and this cap, where a book takes them.
fn book_taken(serial: u64, cap: u32) -> Option<BookSettings>
    ensures { result ≡ result_ok (settings_within widest serial cap) }
{
    match BookSettings::within(Limits::widest(), serial, cap) {
        Ok(settings) => Some(settings),
        Err(_) => None,
    }
}

/// The settings of a book whose answers are wide or not.
fn answering(carries: bool, book: BookSettings) -> BookSettings
    ensures { result ≡ answering carries book }
{
    if carries { book.carrying() } else { book }
}

/// The settings of a book whose payer asks about what the key says, or about nothing where there is none; `None` where it says
/// something else.
fn asks_of(book: BookSettings, table: &Table) -> Option<BookSettings>
    ensures { result ≡ asks_of book (get_member (codes "asks") (table_view table.now)) }
{
    match value_at(table, "asks") {
        None => Some(book),
        Some(value) => match value.as_str() {
            Some(text) => asked(book, text.as_bytes()),
            None => None,
        },
    }
}

/// The settings of a book whose payer asks about claims, or about all.
fn asked(book: BookSettings, text: &[u8]) -> Option<BookSettings>
    ensures { result ≡ asked book text.now }
{
    if text == b"claims".as_slice() {
        return Some(book.asking());
    }
    if text == b"all".as_slice() {
        return Some(book.asking_all());
    }
    None
}

/// The plan without products.
fn bare_plan(alloc: Global, fee: u64, copay: u64) -> Plan
    requires fee { fee ≤ largest }
    requires copay { copay ≤ largest }
    ensures { result ≡ bare_plan fee copay }
{
    let (Some(fee), Some(copay)) = (Amount::new(fee as i64), Amount::new(copay as i64)) else {
        unreachable!()
    };
    match Plan::new(alloc, fee, copay) {
        Ok(plan) => plan,
        Err(_) => unreachable!(),
    }
}

/// The plan with the prices of a payer's table, if there are any.
fn with_prices(plan: Plan, table: &Table) -> Result<Option<Plan>, AllocError>
    ensures { IfOk result (λ priced. priced ≡ with_prices plan (get_member (codes "prices") (table_view table.now))) }
{
    match value_at(table, "prices") {
        None => Ok(Some(plan)),
        Some(value) => match value.as_table() {
            Some(prices) => priced(plan, prices),
            None => Ok(None),
        },
    }
}

/// The plan with the price of each product of a table.
fn priced(mut plan: Plan, prices: &Table) -> Result<Option<Plan>, AllocError>
    ensures { IfOk result (λ all. all ≡ priced plan (table_view prices.now)) }
{
    for (product, value) in prices.iter() {
        if !set_price(&mut plan, product.as_str(), value)? {
            return Ok(None);
        }
    }
    Ok(Some(plan))
}

/// Sets the price of one product. The answer says whether the value is a price and the plan took it.
fn set_price(plan: &mut Plan, product: &str, value: &Value) -> Result<bool, AllocError>
    ensures { IfOk result (λ is_set. cond is_set (Some plan.new) None
        ≡ with_price plan.old product.now (view value.now)) }
{
    let Some(price) = word(value) else {
        return Ok(false);
    };
    match plan.set(product.as_bytes(), price) {
        Ok(()) => Ok(true),
        Err(PlanFault::OutOfMemory) => Err(AllocError),
        Err(_) => Ok(false),
    }
}
