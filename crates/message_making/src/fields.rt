//! The fields of messages, as C has them: a text ends at its first zero byte, and one that has none fills its array.

/// The header of a request, but for what the library writes itself: version, code and count.
#[repr(C)]
#[derive(Clone, Copy)]
pub struct PlainHeader {
    /// The BIN number (101-A1): six digits.
    pub bin: [u8; 7],
    /// The processor control number (104-A4), at most 10 bytes.
    pub pcn: [u8; 11],
    /// The service provider ID qualifier (202-B2), at most 2 bytes.
    pub qualifier: [u8; 3],
    /// The service provider ID (201-B1), at most 15 bytes.
    pub provider: [u8; 16],
    /// The date of service (401-D1): a day, CCYYMMDD.
    pub date: [u8; 9],
    /// The software vendor and certification ID (110-AK), at most 10 bytes.
    pub vendor: [u8; 11],
}

/// A billing of one transaction.
#[repr(C)]
#[derive(Clone, Copy)]
pub struct PlainBilling {
    /// The prescription (402-D2), at most 12 digits.
    pub prescription: u64,
    /// The quantity dispensed (442-E7), in thousandths of a unit, at most 10 digits.
    pub quantity: u64,
    /// The ingredient cost submitted (409-D9), in cents, at most 8 digits.
    pub cost: u32,
    /// The dispensing fee submitted (412-DC), in cents, at most 8 digits.
    pub fee: u32,
    /// The header.
    pub header: PlainHeader,
    /// The cardholder ID (302-C2), 1 to 20 bytes.
    pub cardholder: [u8; 21],
    /// The product (407-D7), 1 to 19 bytes: a National Drug Code.
    pub product: [u8; 20],
    /// The fill number (403-D3), 0 to 99.
    pub fill_number: u8,
}

/// A reversal of one transaction.
#[repr(C)]
#[derive(Clone, Copy)]
pub struct PlainReversal {
    /// The prescription (402-D2), at most 12 digits.
    pub prescription: u64,
    /// The header.
    pub header: PlainHeader,
    /// The product (407-D7), 1 to 19 bytes.
    pub product: [u8; 20],
    /// The fill number (403-D3), 0 to 99; 255 where it is left out.
    pub fill_number: u8,
}
