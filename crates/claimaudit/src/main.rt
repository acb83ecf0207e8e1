//! The program `claimaudit`: the settings and the logs of all nodes, and whether they are those of one legal run; and
//! reports on the tables that it writes.
#![tactic(auto)]

mod finding;
mod words;

use crate::finding::Finding;
use crate::words::{Words, words_of};
use audit_run::{
    Files, Judged, NoVerdict, answered, calls_of, judged_logs, may_go_on, put_verdict, why_nothing,
};
use audit_words::{Asked, Judging};
use claim_reports::{Report, Reported, report_on};
use command_line::{End, given_words, read_file, read_settings_file};
use log_audit::{GivenLog, Outgoing, WriterSink};
use log_turning::{OneLog, Reach, read_logs};
use std::io::Write;
use std::process::ExitCode;
use world_settings::living_settings_fault;

/// Why the program ends without an answer.
type Unjudged = End<Finding>;

fn main(rt: HostRuntime) -> ExitCode {
    match run(&rt) {
        Ok(true) => ExitCode::SUCCESS,
        Ok(false) => ExitCode::from(1),
        Err(end) => end.told(&rt, "claimaudit", 2),
    }
}

/// Answers what the command line asks; whether the answer is good.
fn run(rt: &HostRuntime) -> Result<bool, Unjudged> {
    let given = given_words(rt)?;
    let words = words_of(rt.alloc(), given.as_slice())?;
    let asked = words.asked;
    let answered = match asked {
        Asked::Report(report) => return put_told(rt, reported(rt, &words, report)?),
        Asked::Calls => tell_calls(rt, &words),
        Asked::Verdict(judging) => judge(rt, &words, judging),
    };
    match answered {
        Err(End::Own(Finding::NoVerdict(why))) => Err(refused(rt, &words, why)?),
        answered => answered,
    }
}

/// Writes what is told; whether it is good.
fn put_told(rt: &HostRuntime, told: Reported) -> Result<bool, Unjudged> {
    let mut writer = rt.stdout();
    writer.write_all(told.text.as_slice())?;
    writer.flush()?;
    Ok(told.good)
}

/// Reads tables and reports on them.
fn reported(rt: &HostRuntime, words: &Words<'_>, report: Report) -> Result<Reported, Unjudged> {
    let mut tables = Vec::new(rt.alloc());
    tables.push(read_file(rt, words.settings)?)?;
    for name in &words.logs {
        tables.push(read_file(rt, name)?)?;
    }
    report_on(rt.alloc(), tables.as_slice(), report).map_err(|fault| End::Own(Finding::Report(
        fault,
    )))
}

/// Reads the files, and tells of the records of each log; nothing is judged.
fn tell_calls(rt: &HostRuntime, words: &Words<'_>) -> Result<bool, Unjudged> {
    let told = calls_of(rt.alloc(), read_files(rt, words, Reach::All)?);
    let text = answered(rt.alloc(), words.logs.as_slice(), told).map_err(unjudged)?;
    put_told(rt, Reported { text, good: true })
}

/// Reads the files, judges them, and writes what is told as it is made; standard error says of which switches logs were made, and
/// why there is no table.
fn judge(rt: &HostRuntime, words: &Words<'_>, judging: Judging) -> Result<bool, Unjudged> {
    let (alloc, names) = (rt.alloc(), words.logs.as_slice());
    let reach = if may_go_on(judging) {
        Reach::There
    } else {
        Reach::All
    };
    let files = read_files(rt, words, reach)?;
    let read = judged_logs(alloc, files, judging);
    let Judged { audited, made } = answered(alloc, names, read).map_err(unjudged)?;
    for number in &made {
        let _ = eprintln!(rt;
            "claimaudit: sw{number} has no log: its calls are made of what the others have"
        );
    }
    let mut out = Outgoing::new(alloc, WriterSink::new(rt.stdout()));
    let put = put_verdict(alloc, audited, judging, &mut out);
    let good = answered(alloc, names, put).map_err(unjudged)?;
    out.finish()?.end()?;
    if let Some(why) = why_nothing(judging, good) {
        let _ = eprintln!(rt; "claimaudit: {why}");
    }
    Ok(good)
}

/// The settings, and the logs of the nodes in order, each with the closed ones before it, as far back as is said.
fn read_files(rt: &HostRuntime, words: &Words<'_>, reach: Reach) -> Result<Files, Unjudged> {
    let text = read_settings_file(rt, words.settings)?;
    let mut logs = Vec::new(rt.alloc());
    for name in &words.logs {
        let OneLog { rest, log } = read_logs(rt, text.as_slice(), name, reach).map_err(
            |fault| unjudged(NoVerdict::from(fault)),
        )?;
        logs.push(GivenLog { rest, log })?;
    }
    Ok(Files { text, logs })
}

/// That there is no verdict.
fn unjudged(why: NoVerdict) -> Unjudged {
    End::Own(Finding::NoVerdict(why))
}

/// Why there is no answer: of settings that spell none what is wrong in them.
fn refused(rt: &HostRuntime, words: &Words<'_>, why: NoVerdict) -> Result<Unjudged, Unjudged> {
    if why.is_of_settings() {
        let text = read_settings_file(rt, words.settings)?;
        if let Some(wrong) = living_settings_fault(rt.alloc(), text.as_slice())? {
            return Ok(End::Own(Finding::Settings(wrong)));
        }
    }
    Ok(unjudged(why))
}
