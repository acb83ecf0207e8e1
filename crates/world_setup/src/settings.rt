//! What the nodes of a world are opened with.

ghost use Rattle.std.specs.Prelude.{◌≡◌, map, IfOk};
ghost use Rattle.world_setup.specs.Seen.{payer_seen, settings_seen};

use bin_routes::RouteRow;
use payer_book::{BookSettings, HashKeys};
use pharmacy_journal::PharmacySettings;
use plan_rules::Plan;
use std::alloc::{AllocError, Global};
use switch_node::SwitchSettings;

/// What a payer is opened with: the settings of its book, its plan, and the keys that its book's maps hash with.
#[derive(Drop)]
pub struct PayerSettings {
    /// The first serial number and the most rows.
    pub book: BookSettings,
    /// The plan in force.
    pub plan: Plan,
    /// What the maps of the book hash with (own). Nothing that a payer does hangs on them.
    pub keys: HashKeys,
}

/// What a world is opened with: each kind of node, numbered from 1 in the order of its list, and the routes from the
/// BIN number and processor control number of a request to its payer.
#[derive(Drop)]
pub struct WorldSettings {
    /// The pharmacies.
    pub pharmacies: Vec<PharmacySettings>,
    /// The switches.
    pub switches: Vec<SwitchSettings>,
    /// The payers.
    pub payers: Vec<PayerSettings>,
    /// The rows of the one table of routes.
    pub routes: Vec<RouteRow>,
}

impl PayerSettings {
    /// Settings whose keys are the same in every program.
    pub fn new(book: BookSettings, plan: Plan) -> PayerSettings
        ensures { result ≡ record { book = book; plan = plan; keys = tt } }
    {
        PayerSettings {
            book,
            plan,
            keys: HashKeys::fixed(),
        }
    }

    /// Equal settings, in memory of their own.
    pub fn copy(&self) -> Result<PayerSettings, AllocError>
        ensures { IfOk result (λ copy. payer_seen copy ≡ payer_seen self.now) }
    {
        Ok(PayerSettings {
            book: self.book,
            plan: self.plan.copy()?,
            keys: self.keys.copy(),
        })
    }
}

impl WorldSettings {
    /// Equal settings, in memory of their own.
    pub fn copy(&self) -> Result<WorldSettings, AllocError>
        ensures nodes { IfOk result (λ copy. settings_seen copy ≡ settings_seen self.now) }
        ensures routes { IfOk result (λ copy. copy.routes.items ≡ self.now.routes.items) }
    {
        Ok(WorldSettings {
            pharmacies: pharmacies_copied(*self.pharmacies.allocator(), &self.pharmacies)?,
            switches: Vec::from_slice(*self.switches.allocator(), &self.switches)?,
            payers: payers_copied(*self.payers.allocator(), &self.payers)?,
            routes: routes_copied(*self.routes.allocator(), &self.routes)?,
        })
    }

    /// The same settings, and the maps of every payer's book hash with these keys.
    pub fn with_keys(mut self, keys: &HashKeys) -> WorldSettings
        ensures nodes { settings_seen result ≡ settings_seen self }
        ensures routes { result.routes.items ≡ self.routes.items }
    {
        give_keys(&mut self.payers, keys);
        self
    }
}

/// Gives these keys to the settings of each payer.
fn give_keys(payers: &mut [PayerSettings], keys: &HashKeys)
    ensures { payers.new ≡ payers.old }
{
    for payer in payers.iter_mut() {
        payer.keys = keys.copy();
    }
}

/// Equal settings of pharmacies.
fn pharmacies_copied(
    alloc: Global,
    pharmacies: &[PharmacySettings],
) -> Result<Vec<PharmacySettings>, AllocError>
    ensures { IfOk result (λ copies. copies.items ≡ pharmacies.now) }
{
    let mut copies = Vec::new(alloc);
    for pharmacy in pharmacies {
        copies.push(pharmacy.copy()?)?;
    }
    Ok(copies)
}

/// Equal settings of payers.
fn payers_copied(alloc: Global, payers: &[PayerSettings]) -> Result<Vec<PayerSettings>, AllocError>
    ensures { IfOk result (λ copies. map payer_seen copies.items ≡ map payer_seen payers.now) }
{
    let mut copies = Vec::new(alloc);
    for payer in payers {
        copies.push(payer.copy()?)?;
    }
    Ok(copies)
}

/// Equal routes.
fn routes_copied(alloc: Global, routes: &[RouteRow]) -> Result<Vec<RouteRow>, AllocError>
    ensures { IfOk result (λ copies. copies.items ≡ routes.now) }
{
    let mut copies = Vec::new(alloc);
    for route in routes {
        copies.push(route.copy()?)?;
    }
    Ok(copies)
}
