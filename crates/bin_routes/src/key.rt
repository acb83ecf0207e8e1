//! What a route may look at.

use std::marker::Model;

/// The fields of a request's header by which it is routed. Its fill has all four, and so has a reversal of the fill: so a
/// fill is routed alike for ever.
#[derive(Clone, Copy, PartialEq, Eq)]
pub struct RouteKey {
    /// The BIN number (101-A1).
    pub bin: [u8; 6],
    /// The processor control number (104-A4), filled with spaces.
    pub pcn: [u8; 10],
    /// The service provider ID qualifier (202-B2).
    pub qualifier: [u8; 2],
    /// The service provider ID (201-B1), filled with spaces.
    pub provider: [u8; 15],
}

impl Model for RouteKey {
    ghost use Rattle.bin_routes.specs.Key.{RouteKey as KeySeen};

    ghost Value = { KeySeen };

    ghost view = { λ a. record { bin = a.bin; pcn = a.pcn; qualifier = a.qualifier; provider = a.provider } };

    ghost inverse = { λ a. record { bin = a.bin; pcn = a.pcn; qualifier = a.qualifier; provider = a.provider } };
}
