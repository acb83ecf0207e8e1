//! What is put of logs that were read.

ghost use Rattle.std.specs.Prelude.{◌≡◌, IfOk, OnOk, option_map};
ghost use Rattle.log_audit.specs.LoneTelling.{all_make, alone_text, lones_of};
ghost use Rattle.log_audit.specs.Outgoing.{Puts, PutsSome};
ghost use Rattle.audit_run.specs.Putting.{AreGood, ArePut, IsPut, IsVerdict, are_legal, is_table, not_judged, why_nothing};

use audit_words::{Judging, Scope};
use days_audit::{Days, days_text, judge_days};
use log_audit::{AuditFault, Audited, Form, Outgoing, TextSink, put_alone, put_report};
use std::alloc::Global;

/// What is said last of logs one by one.
const NOT_JUDGED: &[u8] = b"nothing is judged of other nodes\n";

/// Judges logs, and puts what is told of them; whether it is good: that they are those of one legal run, that each node makes its
/// own, or that they are those of legal days.
///
/// # Errors
/// `OutOfMemory`; `NoLine` where a schedule is asked for and the run has none.
pub fn put_verdict<K: TextSink + Drop>(
    alloc: Global,
    audited: Audited,
    judging: Judging,
    out: &mut Outgoing<K>,
) -> Result<bool, AuditFault>
    // It is good exactly where there is such a run, where each node makes its log, or where the days are legal.
    ensures told { IfOk result (λ good. IsVerdict judging audited good) }
    // What is put is told of these logs, as what they are judged, in the form that is asked for.
    ensures text { IfOk result (λ good. PutsSome (IsPut judging audited good) out.old out.new) }
{
    match judging.scope {
        Scope::Run => put_report(alloc, audited, judging.form, out),
        Scope::Each => put_each(alloc, &audited, judging.form, out),
        Scope::Days => put_days(alloc, &audited, judging.form, out),
    }
}

/// Judges logs one by one, and puts what is told of them.
fn put_each<K: TextSink + Drop>(
    alloc: Global,
    audited: &Audited,
    form: Form,
    out: &mut Outgoing<K>,
) -> Result<bool, AuditFault>
    ensures told { IfOk result (λ good. good ≡ all_make (lones_of audited.now)) }
    ensures text { OnOk result (Puts out.old out.new (alone_text audited.now not_judged form)) }
{
    put_alone(alloc, audited, form, NOT_JUDGED, out)
}

/// Judges logs as those of days, and puts what is told of them: a table of legal days alone.
fn put_days<K: TextSink + Drop>(
    alloc: Global,
    audited: &Audited,
    form: Form,
    out: &mut Outgoing<K>,
) -> Result<bool, AuditFault>
    ensures told { IfOk result (λ good. AreGood audited.now good) }
    ensures text { IfOk result (λ good. PutsSome (ArePut form audited.now good) out.old out.new) }
{
    let days = judge_days(alloc, audited.settings(), audited.rests(), audited.logs())?;
    let good = are_legal(&days);
    if is_table(form) && !good {
        return Ok(false);
    }
    let last = days_text(alloc, &days)?;
    put_alone(alloc, audited, form, last.as_slice(), out)?;
    Ok(good)
}

/// Whether days are legal.
fn are_legal(days: &Days) -> bool
    ensures { result ≡ are_legal days.now }
{
    match days {
        Days::Legal(_) => true,
        Days::Not(_) => false,
    }
}

/// Why nothing was put, where a table was asked for that is of good logs alone.
pub fn why_nothing(judging: Judging, good: bool) -> Option<&'static str>
    ensures { option_map (λ why. why.now) result ≡ why_nothing judging good }
{
    if good || !is_table(judging.form) {
        return None;
    }
    match judging.scope {
        Scope::Run => Some("no legal run; without --csv it says why"),
        Scope::Each => Some("a node does not make its log; without --csv it says why"),
        Scope::Days => Some("no legal days; without --csv it says why"),
    }
}

/// Whether a form is a table.
fn is_table(form: Form) -> bool
    ensures { result ≡ is_table form }
{
    match form {
        Form::Csv(_) => true,
        Form::Changes(_) => true,
        Form::Lines => false,
        Form::Json => false,
        Form::Schedule => false,
    }
}
