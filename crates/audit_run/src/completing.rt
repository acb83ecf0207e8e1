//! The logs that are judged together: those that were given, and those that are made of switches which kept none.

ghost use Rattle.std.specs.Prelude.{◌≡◌, IfErr, IfOk};
ghost use Rattle.node_log.specs.LogSeen.{logs_seen};
ghost use Rattle.log_audit.specs.declared.fault.AuditFault.TheVariants.{OutOfMemory};
ghost use Rattle.audit_run.specs.Completing.{Completes, HasLogs, switches_among};

use log_audit::{AuditFault, Audited};
use node_log::NodeLog;
use std::alloc::{AllocError, Global};
use switch_logs::made_logs;
use world_setup::Node;

/// Logs that are judged, and of which switches they were made.
#[derive(Drop)]
pub struct Judged {
    /// The logs.
    pub audited: Audited,
    /// The numbers of the switches whose logs were made, in order.
    pub made: Vec<u16>,
}

/// The logs that were given, and behind them those that are made of switches which kept none.
///
/// # Errors
/// `OutOfMemory`.
pub fn completed(alloc: Global, audited: Audited) -> Result<Judged, AuditFault>
    // Nothing else is judged than the logs that were given, and one of each switch of which none was.
    ensures all { IfOk result (λ all. Completes audited all) }
    // It is refused for want of memory alone.
    ensures memory { IfErr result (λ why. why ≡ OutOfMemory) }
{
    let made = made_logs(alloc, audited.settings(), audited.logs())?;
    let numbers = switches_among(alloc, made.as_slice())?;
    let audited = with_logs(audited, made)?;
    Ok(Judged {
        audited,
        made: numbers,
    })
}

/// The numbers of the switches among the nodes of logs.
fn switches_among(alloc: Global, logs: &[NodeLog]) -> Result<Vec<u16>, AllocError>
    ensures { IfOk result (λ numbers. numbers.items ≡ switches_among (logs_seen logs.now)) }
{
    let mut numbers = Vec::new(alloc);
    for log in logs {
        if let Node::Switch(number) = log.node() {
            numbers.push(number)?;
        }
    }
    Ok(numbers)
}

/// The same with these logs more.
fn with_logs(audited: Audited, logs: Vec<NodeLog>) -> Result<Audited, AllocError>
    ensures { IfOk result (λ all. HasLogs audited logs.items all) }
{
    let mut all = audited;
    for log in logs {
        all = all.with_log(log)?;
    }
    Ok(all)
}
