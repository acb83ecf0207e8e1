//! Reports that accountants use, made of the tables that an audit writes: totals of payments, what a payer sends a pharmacy,
//! what a pharmacy counts beside what a payer paid, what callers were told beside a run, and when rows were ruled.
#![tactic(auto)]

mod book_laws;
mod books;
mod by_days;
mod choice;
mod clock;
mod comparing;
mod daily;
mod differences;
mod fault;
mod ledger;
mod naming;
mod numbers;
mod reading;
mod receipts;
mod remitting;
mod replies;
mod reported;
mod reporting;
mod ruled;
mod ruled_rows;
mod rulings;
mod settling;
mod sides;
mod statement;
mod table;
mod totalling;
mod totals;
mod wider;

pub use book_laws::{remittance_laws, totals_laws};
pub use books::{Books, Span};
pub use by_days::{daily_lines, daily_sums};
pub use choice::{Choice, Paid, chosen};
pub use comparing::compare_tables;
pub use daily::DailyRemittance;
pub use differences::{Counted, Difference, Entry, Figures, Made, compare};
pub use fault::ReportFault;
pub use ledger::{Ledger, LedgerPayment, Move, Moved, Period, period_of};
pub use receipts::receipts_beside;
pub use remitting::{remittance_lines, remittance_sums};
pub use reported::Reported;
pub use reporting::{Report, report_on};
pub use ruled::{Request, Taken, ruled_times};
pub use ruled_rows::ruled_table;
pub use rulings::Remittance;
pub use settling::{Settled, settle};
pub use sides::Between;
pub use totalling::{Days, totals_table};
pub use totals::{By, Sums, totals_of};
