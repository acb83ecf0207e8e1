//! The one book that `read` answers from.

ghost use Rattle.std.specs.Prelude.{◌≡◌, [], IfOk};
ghost use Rattle.read_and_replay.specs.Sample.{opening_book, sample_plan, sample_routes};

use bin_routes::{PayerNo, RouteRow, Routes};
use octets::Octets;
use overpunch::Amount;
use payer_book::{Book, BookSettings, HashKeys};
use plan_rules::Plan;
use std::alloc::{AllocError, Global};

/// Dispensing fee that the plan pays at most, and the patient's part, in cents.
const FEE: i64 = 150;

const COPAY: i64 = 1_000;
/// The one product on the plan (407-D7), and its price in ten-thousandths of a dollar a unit.
const PRODUCT: &[u8] = b"00093721410";

const PRICE: u32 = 18_567;
/// The one BIN that is routed (101-A1), whatever the processor control number.
const BIN: &[u8] = b"610455";

const FIRST_SERIAL: u64 = 1;

const MOST_ROWS: u32 = 1_000;
/// The most payments of a row.
const MOST_PAID: usize = 4;
/// No row and no payment comes of fewer bytes of an input: a request's header alone has 56.
const SHORTEST: usize = 60;

/// An empty book of payer 1, of at most 1,000 rows, whose plan has the one product and whose maps hash with these keys. It
/// has room for what an input of this many bytes can make of it.
pub(crate) fn book(alloc: Global, keys: &HashKeys, bytes: usize) -> Result<Book, AllocError>
    ensures { IfOk result (λ book. book ≡ opening_book) }
{
    let Some(payer) = PayerNo::new(1) else {
        unreachable!()
    };
    let Ok(settings) = BookSettings::new(FIRST_SERIAL, MOST_ROWS) else {
        unreachable!()
    };
    let plan = plan(alloc)?;
    let mut book = Book::keyed(alloc, payer, settings, plan, keys);
    let most = MOST_ROWS as usize;
    let lines = bytes / SHORTEST;
    book.reserve(lines.min(most), lines.min(MOST_PAID * most))?;
    Ok(book)
}

/// The plan with the one product.
fn plan(alloc: Global) -> Result<Plan, AllocError>
    ensures { IfOk result (λ plan. plan ≡ sample_plan) }
{
    let mut plan = empty_plan(alloc);
    match plan.set(PRODUCT, PRICE) {
        Ok(()) => Ok(plan),
        Err(_) => Err(AllocError),
    }
}

/// The plan without products.
fn empty_plan(alloc: Global) -> Plan
    ensures { result ≡ record { fee = 150; copay = 1000; prices = [] } }
{
    let (Some(fee), Some(copay)) = (Amount::new(FEE), Amount::new(COPAY)) else {
        unreachable!()
    };
    match Plan::new(alloc, fee, copay) {
        Ok(plan) => plan,
        Err(_) => unreachable!(),
    }
}

/// The routes: the one BIN to payer 1.
pub(crate) fn routes(alloc: Global) -> Result<Routes, AllocError>
    ensures { IfOk result (λ routes. routes ≡ sample_routes) }
{
    let bin = Octets::copy_of(alloc, BIN)?;
    let row = RouteRow::new(bin, None, 1);
    match Routes::new(alloc, &[row], 1) {
        Ok(routes) => Ok(routes),
        Err(_) => Err(AllocError),
    }
}
