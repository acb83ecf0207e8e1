//! What logs of days come to.

ghost use Rattle.std.specs.Prelude.{◌≡◌, ◌≤◌, true, length, IfOk};
ghost use Rattle.node_log.specs.LogSeen.{logs_seen};
ghost use Rattle.claim_model.specs.Bytes.{bytes_with};
ghost use Rattle.claim_model.specs.Limits.{most_pharmacies};
ghost use Rattle.run_merge.specs.Naming.{all_distinct};
ghost use Rattle.days_audit.specs.Agreeing.{IsAgreed};
ghost use Rattle.days_audit.specs.Begun.{IsJudged};
ghost use Rattle.days_audit.specs.Telling.{days_text};

use crate::live::Live;
use crate::naming::are_parties;
use crate::order::in_order;
use crate::reasons::reasons;
use crate::telling::{misfit_line, put_legal, put_not};
use bin_routes::Routes;
use node_log::NodeLog;
use run_merge::are_distinct;
use std::alloc::{AllocError, Global};
use world_setup::CheckedSettings;

/// What logs of days come to.
#[derive(Debug, Drop, PartialEq, Eq)]
pub enum Days {
    /// They are those of days of so many calls.
    Legal(u64),
    /// They are those of no days. The lines say why, each ended by a newline, and all for the first kind of reason that there is.
    Not(Vec<u8>),
}

/// Whether logs are those of legal days, each log from what it begins with: `rests` has that at the place of the log, where it goes
/// on after closed ones.
///
/// The reasons are of three kinds: that there is not one log of each pharmacy and payer and no other; then that a node cannot
/// begin with what its closed logs left, or does not make its calls; then the calls that nothing vouches for.
///
/// # Errors
/// Memory was refused.
pub fn judge_days(
    alloc: Global,
    settings: &CheckedSettings,
    rests: &[Option<Vec<u8>>],
    logs: &[NodeLog],
) -> Result<Days, AllocError>
    ensures { IfOk result (λ days. IsJudged settings.now rests.now (logs_seen logs.now) days) }
{
    match found_days(alloc, settings, rests, logs)? {
        Days::Legal(calls) => Ok(Days::Legal(calls)),
        Days::Not(waits) => {
            let lines = reasons(alloc, settings, rests, logs, waits)?;
            Ok(Days::Not(lines))
        }
    }
}

/// The same, where lines tell only of calls that nothing vouches for.
fn found_days(
    alloc: Global,
    settings: &CheckedSettings,
    rests: &[Option<Vec<u8>>],
    logs: &[NodeLog],
) -> Result<Days, AllocError>
    ensures { IfOk result (λ days. IsJudged settings.now rests.now (logs_seen logs.now) days) }
{
    if !are_distinct(logs) {
        return Ok(Days::Not(Vec::new(alloc)));
    }
    if !are_parties(settings.settings(), logs) {
        return Ok(Days::Not(Vec::new(alloc)));
    }
    match Live::begin(alloc, settings, rests, logs)? {
        Some(live) => agreed_days(alloc, settings.routes(), live, logs),
        None => Ok(Days::Not(Vec::new(alloc))),
    }
}

/// The same from these nodes, of logs of which none is of a node that another is of.
#[tactic(auto, using(crate::proofs::Judging::agreed_order))]
fn agreed_days(
    alloc: Global,
    routes: &Routes,
    live: Live,
    logs: &[NodeLog],
) -> Result<Days, AllocError>
    requires distinct { all_distinct (logs_seen logs.now) ≡ true }
    requires few { length live.pharmacies ≤ most_pharmacies }
    ensures { IfOk result (λ days. IsAgreed (bytes_with routes.now) live (logs_seen logs.now) days) }
{
    match live.misfit(alloc, routes)? {
        Some(misfit) => Ok(Days::Not(misfit_line(alloc, misfit)?)),
        None => in_order(alloc, routes, live, logs),
    }
}

/// What is said of logs of days.
#[tactic(auto, unfolding(crate::specs::Telling::days_text))]
pub fn days_text(alloc: Global, days: &Days) -> Result<Vec<u8>, AllocError>
    ensures { IfOk result (λ text. text.items ≡ days_text days.now) }
{
    let mut text = Vec::new(alloc);
    match days {
        Days::Legal(calls) => put_legal(&mut text, *calls)?,
        Days::Not(lines) => put_not(&mut text, lines.as_slice())?,
    }
    Ok(text)
}
