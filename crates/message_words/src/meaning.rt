//! What the value of a field means.

ghost use Rattle.std.specs.Prelude.{◌≡◌, Ok, Some};
ghost use Rattle.overpunch.specs.Number.{number_of};
ghost use Rattle.overpunch.specs.Amount.{amount_of};
ghost use Rattle.claim_profile.specs.Authorization.{authorization_of};
ghost use Rattle.claim_profile.specs.Ruling.{code_of};
ghost use Rattle.claim_profile.specs.Transaction.{transaction_code};
ghost use Rattle.message_words.specs.Meanings.{
  amount_fault_words,
  amount_words,
  authorization_words,
  code_meaning,
  header_status_meaning,
  mark_meaning,
  meaning_of,
  number_fault_words,
  plain_meaning,
  quantity_words,
  reject_meaning,
  status_meaning,
  words_for,
};
ghost use Rattle.message_words.specs.Written.{Takes};

use crate::dates::put_date;
use crate::text::Text;
use claim_profile::{Auth, Code, TransactionCode, trimmed};
use message_parts::{FieldName, Mark, number_of};
use overpunch::{Amount, AmountFault, NumberFault, read_number};

/// Appends what the value of a field means; nothing where the value says it itself.
#[tactic(auto, unfolding(crate::specs::Meanings::meaning_of))]
pub(crate) fn put_meaning(out: &mut Text, name: FieldName, value: &[u8])
    ensures { Takes (meaning_of name value.now) out.old out.new }
{
    if name.is_amount() {
        put_amount(out, value);
    } else {
        put_plain_meaning(out, name, value);
    }
}

/// The same of a field that is no amount.
fn put_plain_meaning(out: &mut Text, name: FieldName, value: &[u8])
    ensures { Takes (plain_meaning name value.now) out.old out.new }
{
    match name {
        FieldName::TransactionCode => out.put(code_words(value)),
        FieldName::DateOfService => put_date(out, value),
        FieldName::HeaderStatus => out.put(header_status_words(value)),
        FieldName::PrescriptionQualifier => {
            out.put(words_for(value, b"1", "prescription billing"));
        }
        FieldName::ProductQualifier => out.put(words_for(value, b"03", "national drug code")),
        FieldName::Quantity => put_quantity(out, value),
        FieldName::ResponseStatus => out.put(status_words(value)),
        FieldName::Authorization => put_authorization(out, value),
        FieldName::RejectCode => out.put(reject_words(value)),
        _ => out.put(""),
    }
}

/// What a transaction code means.
fn code_words(value: &[u8]) -> &'static str
    ensures { result.now ≡ code_meaning (transaction_code value.now) }
{
    match code_of(value) {
        Some(TransactionCode::Billing) => "billing",
        Some(TransactionCode::Reversal) => "reversal",
        None => "neither a billing nor a reversal",
    }
}

/// The transaction code that a value is.
#[tactic(auto, using(crate::proofs::Meanings::no_code))]
fn code_of(value: &[u8]) -> Option<TransactionCode>
    ensures { result ≡ transaction_code value.now }
{
    match value {
        [first, second] => TransactionCode::read([*first, *second]),
        _ => None,
    }
}

/// These words for this value alone, after which there may be spaces.
fn words_for(value: &[u8], expected: &[u8], words: &'static str) -> &'static str
    ensures { result.now ≡ words_for value.now expected.now words.now }
{
    if trimmed(value) == expected {
        words
    } else {
        ""
    }
}

/// What a header response status means.
fn header_status_words(value: &[u8]) -> &'static str
    ensures { result.now ≡ header_status_meaning value.now }
{
    match value {
        b"A" => "accepted",
        b"R" => "rejected",
        _ => "neither accepted nor rejected",
    }
}

/// What a transaction response status means.
fn status_words(value: &[u8]) -> &'static str
    ensures { result.now ≡ status_meaning value.now }
{
    match value {
        b"P" => "paid",
        b"D" => "duplicate of a paid claim",
        b"A" => "reversed",
        b"R" => "rejected",
        _ => "unknown",
    }
}

/// Appends a quantity in units.
fn put_quantity(out: &mut Text, value: &[u8])
    ensures { Takes (quantity_words (number_of 10 value.now)) out.old out.new }
{
    match read_number(value, 10) {
        Ok(quantity) => out.units(quantity),
        Err(fault) => put_number_fault(out, fault),
    }
}

/// Appends an amount in dollars.
fn put_amount(out: &mut Text, value: &[u8])
    ensures { Takes (amount_words (amount_of value.now)) out.old out.new }
{
    match Amount::read(value) {
        Ok(amount) => put_dollars(out, amount.cents()),
        Err(fault) => put_amount_fault(out, fault),
    }
}

/// Appends cents as this many dollars.
fn put_dollars(out: &mut Text, cents: i64)
    ensures { Takes (amount_words (Ok cents)) out.old out.new }
{
    out.dollars(cents);
    out.put(" dollars");
}

/// Appends why a value is no amount.
fn put_amount_fault(out: &mut Text, fault: AmountFault)
    ensures { Takes (amount_fault_words fault) out.old out.new }
{
    match fault {
        AmountFault::Empty => out.put("no amount: it is empty"),
        AmountFault::TooLong => out.put("no amount: it has more than 8 digits"),
        AmountFault::BadDigit(place) => {
            out.numbered("no amount: no digit at place ", place as u64);
        }
        AmountFault::BadSign => out.put("no amount: the last byte is no signed digit"),
    }
}

/// Appends why a value is no number.
fn put_number_fault(out: &mut Text, fault: NumberFault)
    ensures { Takes (number_fault_words fault) out.old out.new }
{
    match fault {
        NumberFault::Empty => out.put("no number: it is empty"),
        NumberFault::TooLong => out.put("no number: it has too many digits"),
        NumberFault::BadDigit(place) => {
            out.numbered("no number: no digit at place ", place as u64);
        }
    }
}

/// Appends the payer and the serial of an authorization number.
fn put_authorization(out: &mut Text, value: &[u8])
    ensures { Takes (authorization_words (authorization_of value.now)) out.old out.new }
{
    match Auth::read(value) {
        Some(auth) => put_payer(out, auth),
        None => out.put("no authorization number"),
    }
}

/// The same of one that is an authorization.
fn put_payer(out: &mut Text, auth: Auth)
    ensures { Takes (authorization_words (Some auth)) out.old out.new }
{
    out.numbered("payer ", u64::from(auth.payer()));
    out.numbered(", serial ", auth.serial());
}

/// The name of the reject code that a value is.
fn reject_words(value: &[u8]) -> &'static str
    ensures { result.now ≡ reject_meaning (code_of value.now) }
{
    match Code::read(value) {
        Some(code) => code.name(),
        None => "a code that the product does not know",
    }
}

/// Appends the number that the bytes of a mark of an envelope or a record spell, where they spell one.
#[tactic(auto, unfolding(crate::specs::Meanings::mark_meaning))]
pub(crate) fn put_mark(out: &mut Text, mark: Mark, bytes: &[u8])
    ensures { Takes (mark_meaning mark bytes.now) out.old out.new }
{
    if mark.is_number() {
        out.number(number_of(bytes));
    } else {
        out.put("");
    }
}
