//! Why the program ends without an answer.

use audit_run::NoVerdict;
use claim_reports::ReportFault;
use thiserror::Error;

/// Why the program ends without an answer.
#[derive(Debug, Drop, Error)]
pub(crate) enum Finding {
    /// The words are wrong.
    #[error("usage: claimaudit [--alone | --days] [--csv payments|entries|rows|packets|open|counted | --json | --schedule] SETTINGS LOG..., --calls SETTINGS LOG..., or a report on tables (-h)")]
    Usage,
    /// The settings are refused: what is wrong in them.
    #[error("settings refused: {0}")]
    Settings(String),
    /// There is no report on the tables.
    #[error("{0}")]
    Report(ReportFault),
    /// There is no verdict on the logs.
    #[error("{0}")]
    NoVerdict(NoVerdict),
}
