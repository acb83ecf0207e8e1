//! Payments, and which of them a report is about.

ghost use Rattle.std.specs.Prelude.{◌≡◌, filter, IfErr, IfOk};
ghost use Rattle.claim_reports.specs.declared.fault.ReportFault.TheVariants.{OutOfMemory};
ghost use Rattle.claim_reports.specs.Shelves.{is_of};
ghost use Rattle.claim_reports.specs.Totals.{is_number, is_from, is_to, is_chosen};

use crate::books::Books;
use crate::fault::ReportFault;
use std::alloc::Global;

/// A payment of a table.
#[derive(Clone, Copy)]
pub struct Paid {
    /// The payer that made it.
    pub payer: u64,
    /// The pharmacy that asked for it.
    pub pharmacy: u64,
    /// The day that a report goes by as a number, CCYYMMDD, where there is one: its date of service (401-D1), or the day on
    /// which it was ruled.
    pub day: Option<u64>,
    /// Its total (509-F9) in cents.
    pub cents: u64,
    /// Whether it was reversed.
    pub reversed: bool,
}

/// Which payments a report is about.
#[derive(Clone, Copy)]
pub struct Choice {
    /// Those of these books of a payer; of all where it is none.
    pub books: Option<Books>,
    /// Those that this pharmacy asked for; or any.
    pub pharmacy: Option<u64>,
    /// Those of this day, CCYYMMDD, or a later one; or any.
    pub from: Option<u64>,
    /// Those of this day or an earlier one; or any.
    pub to: Option<u64>,
}

/// The payments that are chosen, in their order.
///
/// # Errors
/// Want of memory.
pub fn chosen(alloc: Global, choice: &Choice, paid: &[Paid]) -> Result<Vec<Paid>, ReportFault>
    ensures kept { IfOk result (λ kept. kept.items ≡ filter (is_chosen choice.now) paid.now) }
    // It is refused for want of memory alone.
    ensures memory { IfErr result (λ e. e ≡ OutOfMemory) }
{
    let kept = paid.iter().filter(|payment| choice.has(*payment));
    Ok(kept.copied().collect(alloc)?)
}

impl Choice {
    /// Whether it is about a payment.
    fn has(&self, payment: &Paid) -> bool
        ensures { result ≡ is_chosen self.now payment.now }
    {
        is_of(self.books, payment.payer)
            && is_number(self.pharmacy, payment.pharmacy)
            && is_from(self.from, payment.day)
            && is_to(self.to, payment.day)
    }
}

/// Whether a number is that of a book that is wanted, where some are.
fn is_of(books: Option<Books>, number: u64) -> bool
    ensures { result ≡ is_of books number }
{
    books.is_none_or(|books| books.has(number))
}

/// Whether a number is the one that is wanted, where one is.
fn is_number(wanted: Option<u64>, number: u64) -> bool
    ensures { result ≡ is_number wanted number }
{
    wanted.is_none_or(|wanted| number == wanted)
}

/// Whether a day is the first that is wanted or a later one, where one is wanted.
pub(crate) fn is_from(first: Option<u64>, day: Option<u64>) -> bool
    ensures { result ≡ is_from first day }
{
    first.is_none_or(|first| day.is_some_and(|day| first <= day))
}

/// Whether a day is the last that is wanted or an earlier one, where one is wanted.
pub(crate) fn is_to(last: Option<u64>, day: Option<u64>) -> bool
    ensures { result ≡ is_to last day }
{
    last.is_none_or(|last| day.is_some_and(|day| day <= last))
}
