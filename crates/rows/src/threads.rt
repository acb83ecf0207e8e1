//! Nodes on threads, and what is behind their locks: inboxes, one node with its log, tills and the judge of logs, running systems,
//! and worlds that are refused memory.

mod callers;
mod commands;
mod ended;
mod gates;
mod held;
mod holding;
mod inboxes;
mod judging;
mod logs;
pub(crate) mod refused;
mod requests;
mod restarts;
mod settings;
mod stops;
mod systems;
mod tills;
mod waits;
mod words;

use case_files::{CaseFile, Runner};
use std::alloc::AllocError;
use std::sync::Wait;
use std::thread::Threads;
use std::time::Clock;

/// Runs a file of rows; settings, days and systems are of these files, and threads come from `rt`.
pub(crate) fn check<T>(
    rt: &T,
    runner: &mut Runner,
    files: &[CaseFile],
    file: &CaseFile,
) -> Result<(), AllocError>
where
    T: Threads + Wait + Clock + Copy + Send + Sync + 'static,
{
    let alloc = runner.alloc();
    match file.stem() {
        "inboxes" => inboxes::run(rt, runner, file),
        "held" => held::run(rt, runner, files, file),
        "judging" => runner.rows(file, &mut judging::Judging::new(alloc, files)),
        "systems" => systems::run(rt, runner, files, file),
        "refused" => runner.rows(file, &mut refused::Refused { files }),
        "stops" => runner.rows(file, &mut stops::Stops),
        _ => runner.fail(file, 0, "a file that is not known"),
    }
}
