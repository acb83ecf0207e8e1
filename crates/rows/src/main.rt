//! Runs the rows: files of public calls that no program makes, and what each comes to. With the word `steps` or `runs` it goes
//! through the day on standard input alone, for `tests/refuse-memory`.
#![tactic(auto)]

mod amounts;
mod arguments;
mod building;
mod failing;
mod lists;
mod nodes;
mod numbers;
mod telling;
mod threads;

use case_files::{CaseFile, Runner, read_folder};
use std::alloc::AllocError;
use std::io::Read;
use std::process::ExitCode;
use std::sync::Wait;
use std::thread::Threads;
use std::time::Clock;
use std::{env, io};
use threads::refused::is_as_told;

fn main(rt: HostRuntime) -> ExitCode {
    match words_of(&rt) {
        Some(words) if words.len() > 1 => ExitCode::from(over_input(&rt, &words)),
        Some(_) => match run_cases(&rt, &rt) {
            Ok(true) => ExitCode::SUCCESS,
            _ => ExitCode::FAILURE,
        },
        None => ExitCode::from(3),
    }
}

/// The words of the command line; none where they could not be had.
fn words_of(rt: &HostRuntime) -> Option<Vec<String>> {
    match env::args(rt) {
        Ok(words) => words.collect(rt.alloc()).ok(),
        Err(_) => None,
    }
}

/// Goes through the case of a word over the day on standard input. The status is 0 where all comes out as it should, 1 where it
/// does not, 2 where there is no such case, and 3 where the input could not be had whole.
fn over_input(rt: &HostRuntime, words: &[String]) -> u8 {
    match (words, input_of(rt)) {
        ([_, name], Some(input)) => match is_as_told(rt.alloc(), name.as_str(), &input) {
            Some(true) => 0,
            Some(false) => 1,
            None => 2,
        },
        (_, None) => 3,
        _ => 2,
    }
}

/// Standard input; none where it could not be had whole.
fn input_of(rt: &HostRuntime) -> Option<Vec<u8>> {
    let mut text = Vec::new(rt.alloc());
    let done = rt.stdin().read_to_end(&mut text).is_ok();
    if done { Some(text) } else { None }
}

/// Runs all files of cases and prints how they come out; whether all come out as they say. Systems have their threads from
/// `threads`.
fn run_cases<T>(rt: &HostRuntime, threads: &T) -> io::Result<bool>
where
    T: Threads + Wait + Clock + Copy + Send + Sync + 'static,
{
    let files = read_folder(rt, ".")?;
    let mut runner = Runner::new(rt.alloc());
    let done = run_files(threads, &mut runner, &files);
    rt.print(runner.printed())?;
    Ok(done.is_ok() && !runner.has_failed())
}

/// Runs all files of cases: texts first, then the others, by name.
fn run_files<T>(rt: &T, runner: &mut Runner, files: &[CaseFile]) -> Result<(), AllocError>
where
    T: Threads + Wait + Clock + Copy + Send + Sync + 'static,
{
    for file in files {
        if file.ending() == "texts" {
            runner.texts(file)?;
        }
    }
    for file in files {
        run_file(rt, runner, files, file)?;
    }
    Ok(())
}

/// Runs a file of cases.
fn run_file<T>(
    rt: &T,
    runner: &mut Runner,
    files: &[CaseFile],
    file: &CaseFile,
) -> Result<(), AllocError>
where
    T: Threads + Wait + Clock + Copy + Send + Sync + 'static,
{
    let alloc = runner.alloc();
    match file.ending() {
        "texts" => return Ok(()),
        "toml" => return runner.line(file, "settings"),
        "day" => return runner.line(file, "day"),
        _ => {}
    }
    match file.stem() {
        "amounts" => runner.rows(file, &mut amounts::Amounts),
        "numbers" => runner.rows(file, &mut numbers::Numbers),
        "failing" => runner.rows(file, &mut failing::Failing::new(alloc)),
        "lists" => runner.rows(file, &mut lists::Lists),
        "building" => runner.rows(file, &mut building::Building),
        "inboxes" | "held" | "judging" | "systems" | "refused" | "stops" => {
            threads::check(rt, runner, files, file)
        }
        _ => nodes::check(runner, file),
    }
}
