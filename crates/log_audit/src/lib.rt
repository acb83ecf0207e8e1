//! The audit of logs: whether the logs of all nodes are those of one legal run, and what that run left; or why they are
//! not.
#![tactic(auto)]

mod alone;
mod calls;
mod fault;
mod judging;
mod outgoing;
mod reading;
mod report;
mod revisions;
mod sentences;
mod tables;

pub use alone::report::put_alone;
pub use calls::calls_table;
pub use fault::{AuditFault, ReferenceFault};
pub use judging::reasons::{last_reason_is_last, some_reason_is_told};
pub use judging::{Verdict, judge};
pub use outgoing::writer_sink::WriterSink;
pub use outgoing::{Outgoing, TextSink};
pub use reading::{Audited, GivenLog, opened, read_audited};
pub use report::{Form, Report, put_report, report_on};
pub use revisions::tables::Changes;
pub use tables::laws::rows_have_their_columns;
pub use tables::table::Table;
