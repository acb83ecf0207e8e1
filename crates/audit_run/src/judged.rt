//! Which logs are judged.

ghost use Rattle.std.specs.Prelude.{◌≡◌, IfErr, IfOk};
ghost use Rattle.log_audit.specs.declared.fault.AuditFault.TheVariants.{OutOfMemory};
ghost use Rattle.log_audit.specs.Calls.{IsCallsTable};
ghost use Rattle.log_audit.specs.Given.{bytes_of, given_of};
ghost use Rattle.log_audit.specs.Refused.{IsRefused, IsUntabled};
ghost use Rattle.audit_run.specs.Judged.{AsGiven, Judges, TakesRead, given_for, is_of_some, is_of_whole_logs, logs_in, may_go_on};

use crate::completing::{Judged, completed};
use audit_words::{Judging, Scope};
use log_audit::{AuditFault, Audited, Form, GivenLog, calls_table, opened, read_audited};
use std::alloc::{AllocError, Global};

/// The settings, a TOML document, and logs, as their files were read.
#[derive(Drop)]
pub struct Files {
    /// The settings.
    pub text: Vec<u8>,
    /// The logs, in order.
    pub logs: Vec<GivenLog>,
}

/// Whether logs may go on after closed ones that do not stand beside them: those that are judged one by one, or as those of
/// days. Changes of plans are those of all calls.
pub fn may_go_on(by: Judging) -> bool
    ensures { result ≡ may_go_on by }
{
    is_of_some(by.scope) && !is_of_whole_logs(by.form)
}

/// Whether logs are judged so that not all calls of their nodes are wanted.
fn is_of_some(scope: Scope) -> bool
    ensures { result ≡ is_of_some scope }
{
    match scope {
        Scope::Run => false,
        Scope::Each => true,
        Scope::Days => true,
    }
}

/// Whether a form is told of whole logs alone.
fn is_of_whole_logs(form: Form) -> bool
    ensures { result ≡ is_of_whole_logs form }
{
    match form {
        Form::Changes(_) => true,
        Form::Lines => false,
        Form::Json => false,
        Form::Csv(_) => false,
        Form::Schedule => false,
    }
}

/// Reads the settings and the logs, of which each may go on after closed ones where `may_go_on` says so; and makes the logs of
/// switches that kept none, where all are judged as those of a run.
///
/// # Errors
/// Those of `read_audited`.
pub fn judged_logs(alloc: Global, files: Files, by: Judging) -> Result<Judged, AuditFault>
    // What is judged is what the text spells and the logs are; and it is told of which switches logs were made.
    ensures given { IfOk result (λ judged. Judges by files.text.items files.logs.items judged) }
    // The cause is true, and those before it do not stand.
    ensures refused { IfErr result (λ why. IsRefused files.text.items (given_for by files.logs.items) why) }
{
    let Files { text, logs } = files;
    let given = given_for(alloc, by, logs)?;
    let read = read_audited(alloc, text, given)?;
    take_read(alloc, read, by.scope)
}

/// The logs as they are read: where they may not go on after others, each begins with the opening of its node.
fn given_for(alloc: Global, by: Judging, logs: Vec<GivenLog>) -> Result<Vec<GivenLog>, AllocError>
    ensures { IfOk result (λ given. given_of given.items ≡ given_for by logs.items) }
{
    if may_go_on(by) {
        Ok(logs)
    } else {
        opened(alloc, whole_logs(alloc, logs)?)
    }
}

/// The records of whole logs as CSV; nothing is judged.
///
/// # Errors
/// Those of `calls_table`.
pub fn calls_of(alloc: Global, files: Files) -> Result<Vec<u8>, AuditFault>
    // What is told is what the logs are under the settings that the text spells.
    ensures given { IfOk result (λ out. IsCallsTable files.text.items (logs_in files.logs.items) out.items) }
    // The cause is true, and those before it do not stand.
    ensures refused { IfErr result (λ why. IsUntabled files.text.items (logs_in files.logs.items) why) }
{
    let Files { text, logs } = files;
    let whole = whole_logs(alloc, logs)?;
    calls_table(alloc, text.as_slice(), whole)
}

/// Takes logs that were read: as those of a run together with those that are made, else as they are.
fn take_read(alloc: Global, read: Audited, scope: Scope) -> Result<Judged, AuditFault>
    ensures takes { IfOk result (λ judged. TakesRead scope read judged) }
    ensures memory { IfErr result (λ why. why ≡ OutOfMemory) }
{
    match scope {
        Scope::Run => completed(alloc, read),
        Scope::Each => Ok(as_given(alloc, read)),
        Scope::Days => Ok(as_given(alloc, read)),
    }
}

/// Logs as they were given.
fn as_given(alloc: Global, audited: Audited) -> Judged
    ensures { AsGiven audited result }
{
    Judged {
        audited,
        made: Vec::new(alloc),
    }
}

/// The bytes of logs, without what they begin with.
fn whole_logs(alloc: Global, logs: Vec<GivenLog>) -> Result<Vec<Vec<u8>>, AllocError>
    ensures { IfOk result (λ whole. bytes_of whole.items ≡ logs_in logs.items) }
{
    let mut whole = Vec::new(alloc);
    for log in logs {
        let GivenLog { rest: _, log } = log;
        whole.push(log)?;
    }
    Ok(whole)
}
