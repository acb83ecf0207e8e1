//! What a transaction asks for.

use crate::texts::Text;

/// One dispensing of a prescription, as the transmission names it: the header's BIN (101-A1),
/// processor control number (104-A4), service provider qualifier and ID (202-B2, 201-B1), all
/// padded, the prescription number (402-D2) and the fill number (403-D3).
#[derive(Clone, Copy, PartialEq, Eq, PartialOrd, Ord)]
pub struct Fill {
    pub bin: [u8; 6],
    pub pcn: [u8; 10],
    pub qualifier: [u8; 2],
    pub provider: [u8; 15],
    pub fill: u8,
    pub prescription: u64,
}

/// A billing: what was dispensed to whom on which day, and what is asked for it.
#[derive(Clone, Copy, PartialEq, Eq)]
pub struct Claim {
    pub fill: Fill,
    /// Date of service (401-D1), a day of the calendar as `CCYYMMDD`.
    pub date: [u8; 8],
    /// Cardholder ID (302-C2), without trailing spaces.
    pub cardholder: Text<20>,
    /// Product/service ID (407-D7), a national drug code, without trailing spaces.
    pub product: Text<19>,
    /// Quantity dispensed (442-E7), in thousandths of a unit.
    pub quantity: u64,
    /// Ingredient cost submitted (409-D9), in cents.
    pub cost: u32,
    /// Dispensing fee submitted (412-DC), in cents; 0 where none is submitted.
    pub fee: u32,
}

/// A reversal: reverses the payment of a fill. Without a fill number it names every fill of its
/// prescription on its day.
#[derive(Clone, Copy, PartialEq, Eq)]
pub struct Reversal {
    pub bin: [u8; 6],
    pub pcn: [u8; 10],
    pub qualifier: [u8; 2],
    pub provider: [u8; 15],
    pub prescription: u64,
    pub fill: Option<u8>,
    /// Date of service (401-D1), a day of the calendar as `CCYYMMDD`.
    pub date: [u8; 8],
}

/// What one transaction asks for.
#[derive(Clone, Copy, PartialEq, Eq)]
pub enum Order {
    /// Transaction code B1.
    Claim(Claim),
    /// Transaction code B2.
    Reversal(Reversal),
}
