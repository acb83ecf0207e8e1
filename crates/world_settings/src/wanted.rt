//! What is wanted at each key, for people.

use claim_model::Limits;
use std::fmt;
use std::fmt::{Display, Formatter};
use toml::Value;

/// A key of a table, and what is wanted there.
#[derive(Clone, Copy)]
pub(crate) enum Key {
    /// It has to be there.
    Needed(&'static str, Wanted),
    /// It may be left out.
    AtWill(&'static str, Wanted),
}

/// What is wanted of a value.
#[derive(Clone, Copy)]
pub(crate) enum Wanted {
    /// A whole number within these bounds.
    Number(i64, i64),
    /// How many entries, slots or rows a node may have.
    Cap,
    /// The number of a payer.
    Payer,
    /// A text of at most this many bytes without a separator.
    Text(usize),
    /// Six digits.
    Bin,
    /// A text of at most ten bytes, without a separator or a space at its end.
    Pcn,
    /// What a payer asks for.
    Asked,
    /// Whether answers are wide.
    Profile,
    /// The numbers of switches.
    Switches,
    /// The numbers of switches, none over this one.
    SwitchesTo(i64),
    /// Products and their prices.
    Prices,
    /// An array of tables.
    Tables,
    /// A table.
    Table,
}

/// The largest number of cents, and the largest price.
const MOST_CENTS: i64 = 99_999_999;
/// The largest serial number.
const MOST_SERIAL: i64 = 999_999_999_999;
/// The most digits of a BIN number (101-A1).
const BIN_DIGITS: usize = 6;
/// The most bytes of a processor control number (104-A4).
const MOST_PCN: usize = 10;
/// What a payer may ask for.
const ASKED: [&str; 2] = ["claims", "all"];
/// What the answers of a network may be.
const PROFILES: [&str; 2] = ["narrow", "wide"];
/// The most bytes of a product (407-D7).
const MOST_PRODUCT: usize = 19;

/// The keys of the whole.
pub(crate) const TOP: &[Key] = &[
    Key::Needed("again", Wanted::Number(1, 1_000)),
    Key::Needed("tries", Wanted::Number(1, 1_000)),
    Key::Needed("pharmacy", Wanted::Tables),
    Key::Needed("switch", Wanted::Tables),
    Key::Needed("payer", Wanted::Tables),
    Key::Needed("route", Wanted::Tables),
];
/// The keys of the whole, where it may state its limits.
pub(crate) const LIVING_TOP: &[Key] = &[
    Key::AtWill("limits", Wanted::Table),
    Key::AtWill("answers", Wanted::Table),
    Key::Needed("again", Wanted::Number(1, 1_000)),
    Key::Needed("tries", Wanted::Number(1, 1_000)),
    Key::Needed("pharmacy", Wanted::Tables),
    Key::Needed("switch", Wanted::Tables),
    Key::Needed("payer", Wanted::Tables),
    Key::Needed("route", Wanted::Tables),
];
/// The keys of the limits.
pub(crate) const LIMITS: &[Key] = &[
    Key::AtWill("pharmacies", Wanted::Number(1, 65_535)),
    Key::AtWill("switches", Wanted::Number(1, 4_096)),
    Key::AtWill("payers", Wanted::Number(1, 4_096)),
    Key::AtWill("entries", Wanted::Number(1, 16_777_216)),
];
/// The keys of the table that says what answers carry.
pub(crate) const ANSWERS: &[Key] = &[Key::Needed("profile", Wanted::Profile)];
/// The keys of a pharmacy.
pub(crate) const PHARMACY: &[Key] = &[
    Key::Needed("qualifier", Wanted::Text(2)),
    Key::Needed("provider", Wanted::Text(15)),
    Key::Needed("nodes", Wanted::Switches),
    Key::Needed("cap", Wanted::Cap),
];
/// The keys of a switch.
pub(crate) const SWITCH: &[Key] = &[Key::Needed("cap", Wanted::Cap)];
/// The keys of a payer.
pub(crate) const PAYER: &[Key] = &[
    Key::Needed("fee", Wanted::Number(0, MOST_CENTS)),
    Key::Needed("copay", Wanted::Number(0, MOST_CENTS)),
    Key::Needed("cap", Wanted::Cap),
    Key::AtWill("serial", Wanted::Number(1, MOST_SERIAL)),
    Key::AtWill("prices", Wanted::Prices),
];
/// The keys of a payer in wide settings.
pub(crate) const LIVING_PAYER: &[Key] = &[
    Key::AtWill("asks", Wanted::Asked),
    Key::Needed("fee", Wanted::Number(0, MOST_CENTS)),
    Key::Needed("copay", Wanted::Number(0, MOST_CENTS)),
    Key::Needed("cap", Wanted::Cap),
    Key::AtWill("serial", Wanted::Number(1, MOST_SERIAL)),
    Key::AtWill("prices", Wanted::Prices),
];
/// The keys of a route.
pub(crate) const ROUTE: &[Key] = &[
    Key::Needed("bin", Wanted::Bin),
    Key::Needed("payer", Wanted::Payer),
    Key::AtWill("pcn", Wanted::Pcn),
];
/// The keys of a route in wide settings.
pub(crate) const LIVING_ROUTE: &[Key] = &[
    Key::Needed("bin", Wanted::Bin),
    Key::Needed("payer", Wanted::Payer),
    Key::AtWill("pcn", Wanted::Pcn),
    Key::AtWill("qualifier", Wanted::Text(2)),
    Key::AtWill("provider", Wanted::Text(15)),
    Key::AtWill("first", Wanted::Text(15)),
    Key::AtWill("last", Wanted::Text(15)),
];
/// The keys of a route in wide settings whose requests stay rejected.
pub(crate) const REJECTING_ROUTE: &[Key] = &[
    Key::Needed("bin", Wanted::Bin),
    Key::Needed("pcn", Wanted::Pcn),
    Key::Needed("qualifier", Wanted::Text(2)),
    Key::Needed("provider", Wanted::Text(15)),
    Key::Needed("rejected", Wanted::Number(1, i64::MAX)),
];

impl Key {
    /// Its name.
    pub(crate) fn name(self) -> &'static str {
        match self {
            Key::Needed(name, _) | Key::AtWill(name, _) => name,
        }
    }

    /// What is wanted there.
    pub(crate) fn wanted(self) -> Wanted {
        match self {
            Key::Needed(_, wanted) | Key::AtWill(_, wanted) => wanted,
        }
    }

    /// Whether it has to be there.
    pub(crate) fn is_needed(self) -> bool {
        matches!(self, Key::Needed(_, _))
    }
}

impl Wanted {
    /// What is wanted where settings have these limits.
    pub(crate) fn within(self, limits: Limits) -> Wanted {
        match self {
            Wanted::Cap => Wanted::Number(1, i64::from(limits.entries())),
            Wanted::Payer => Wanted::Number(1, i64::from(limits.payers())),
            Wanted::Switches => Wanted::SwitchesTo(i64::from(limits.switches())),
            other => other,
        }
    }

    /// Whether a value is what is wanted.
    pub(crate) fn takes(self, value: &Value) -> bool {
        match self {
            Wanted::Number(least, most) => is_within(value, least, most),
            Wanted::Text(most) => match value.as_str() {
                Some(text) => is_plain(text.as_bytes(), most),
                None => false,
            },
            Wanted::Bin => match value.as_str() {
                Some(text) => is_bin(text.as_bytes()),
                None => false,
            },
            Wanted::Pcn => match value.as_str() {
                Some(text) => is_plain(text.as_bytes(), MOST_PCN)
                    && !ends_in_space(text.as_bytes()),
                None => false,
            },
            Wanted::Asked => is_one_of(value, &ASKED),
            Wanted::Profile => is_one_of(value, &PROFILES),
            Wanted::Cap | Wanted::Payer => value.as_integer().is_some(),
            Wanted::Switches => are_switches(value, i64::MAX),
            Wanted::SwitchesTo(most) => are_switches(value, most),
            Wanted::Prices => are_prices(value),
            Wanted::Tables => are_tables(value),
            Wanted::Table => value.as_table().is_some(),
        }
    }
}

impl Display for Wanted {
    fn fmt<W: fmt::Write>(&self, f: &mut Formatter<W>) -> fmt::Result {
        match *self {
            Wanted::Number(least, most) => write!(f, "a whole number from {least} to {most}"),
            Wanted::Text(most) => write!(f, "a text of at most {most} bytes without separators"),
            Wanted::Bin => f.write_str("a text of six digits"),
            Wanted::Pcn => {
                f.write_str(
                    "a text of at most 10 bytes without separators and without a space at its end",
                )
            }
            Wanted::Asked => f.write_str("the text claims or all"),
            Wanted::Profile => f.write_str("the text narrow or wide"),
            Wanted::Cap => f.write_str("a cap"),
            Wanted::Payer => f.write_str("the number of a payer"),
            Wanted::Switches | Wanted::SwitchesTo(_) => {
                f.write_str("a list of the numbers of switches, one at least")
            }
            Wanted::Prices => f.write_str(
                "a table of products and their prices: 1 to 19 bytes without separators and without a space at the end, and a whole number from 0 to 99999999",
            ),
            Wanted::Tables => f.write_str("an array of tables"),
            Wanted::Table => f.write_str("a table"),
        }
    }
}

/// Whether a value is a whole number within these bounds.
fn is_within(value: &Value, least: i64, most: i64) -> bool {
    match value.as_integer() {
        Some(number) => least <= number && number <= most,
        None => false,
    }
}

/// Whether a value is one of these texts.
fn is_one_of(value: &Value, texts: &[&str]) -> bool {
    match value.as_str() {
        Some(text) => texts.contains(&text),
        None => false,
    }
}

/// Whether a text has at most this many bytes and no separator.
fn is_plain(text: &[u8], most: usize) -> bool {
    text.len() <= most && !text.iter().any(|byte| matches!(*byte, 0x1C..=0x1E))
}

/// Whether a text is a BIN number.
fn is_bin(text: &[u8]) -> bool {
    text.len() == BIN_DIGITS && text.iter().all(|byte| byte.is_ascii_digit())
}

/// Whether the last byte of a text is a space.
fn ends_in_space(text: &[u8]) -> bool {
    text.last() == Some(&b' ')
}

/// Whether a value is a list of numbers of switches, none over `most`.
fn are_switches(value: &Value, most: i64) -> bool {
    let Some(list) = value.as_array() else {
        return false;
    };
    !list.is_empty()
        && list
            .as_slice()
            .iter()
            .all(|number| is_within(number, 1, most))
}

/// Whether a value is a table of prices.
fn are_prices(value: &Value) -> bool {
    let Some(prices) = value.as_table() else {
        return false;
    };
    for (product, price) in prices.iter() {
        let text = product.as_str().as_bytes();
        let known = !text.is_empty() && is_plain(text, MOST_PRODUCT) && !ends_in_space(text);
        if !known || !is_within(price, 0, MOST_CENTS) {
            return false;
        }
    }
    true
}

/// Whether a value is an array of tables.
fn are_tables(value: &Value) -> bool {
    let Some(list) = value.as_array() else {
        return false;
    };
    list.as_slice().iter().all(|item| item.as_table().is_some())
}
