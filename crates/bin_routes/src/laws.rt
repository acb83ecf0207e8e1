//! What is true of every table, for the proofs of the crates above.

ghost use Rattle.std.specs.Prelude.{◌≡◌, ◌≤◌, ℕ, List, [], ◌++◌, None, Some, IfSome, true};
ghost use Rattle.std.specs.List.{AllByRecursion};
ghost use Rattle.bin_routes.specs.Key.{RouteKey};
ghost use Rattle.bin_routes.specs.Row.{Row, leads};
ghost use Rattle.bin_routes.specs.Fault.{first_fault};
ghost use Rattle.bin_routes.specs.Table.{RouteMaps, routes_of, among, payer_at, payer_of, payer_under, IsForOthers};

/// Where rows have no fault, each payer that they route to is one of the payers.
#[tactic(auto, using(crate::proofs::Payers::routed_payer))]
pub fn route_laws()
    ensures { (payers : ℕ) (rows : List Row) (bin pcn : List ℕ) → first_fault payers rows ≡ None
        → IfSome (payer_at (routes_of rows) bin pcn) (λ payer. (1 ≤ payer) × (payer ≤ payers)) }
{}

/// A request has the payer of its fields or none: those of one key that have one have the same, whatever their numbers are.
/// Where no row says what stays rejected each has it. How many switches there are says nothing of it.
#[tactic(auto, using(crate::proofs::Payers::number_led, crate::proofs::Payers::number_without, crate::proofs::Payers::number_among))]
pub fn number_laws()
    ensures led { (maps : RouteMaps) (number : ℕ) (key : RouteKey) (payer : ℕ)
        → payer_under maps number key ≡ Some payer → payer_of maps key ≡ Some payer }
    ensures without { (rows : List Row) (number : ℕ) (key : RouteKey) → AllByRecursion (λ row. leads row ≡ true) rows
        → payer_under (routes_of rows) number key ≡ payer_of (routes_of rows) key }
    ensures among { (maps : RouteMaps) (switches number : ℕ) (key : RouteKey)
        → payer_under (among switches maps) number key ≡ payer_under maps number key }
{}

/// Where rows have no fault, each payer that they route a header to is one of the payers. Where no row is for some providers
/// alone it is the payer of the BIN number and the processor control number. And such rows after the others change the payer of
/// no provider but their own.
#[tactic(auto, using(crate::proofs::Payers::ranged_within, crate::proofs::Payers::ranged_without, crate::proofs::Payers::ranged_added))]
pub fn range_laws()
    ensures within { (payers : ℕ) (rows : List Row) (key : RouteKey) → first_fault payers rows ≡ None
        → IfSome (payer_of (routes_of rows) key) (λ payer. (1 ≤ payer) × (payer ≤ payers)) }
    ensures without { (maps : RouteMaps) (key : RouteKey) → maps.ranged ≡ []
        → payer_of maps key ≡ payer_at maps key.bin key.pcn }
    ensures added { (rows more : List Row) (number : ℕ) (key : RouteKey)
        → AllByRecursion (λ row. IsForOthers row key.qualifier key.provider) more
        → payer_under (routes_of (rows ++ more)) number key ≡ payer_under (routes_of rows) number key }
{}
