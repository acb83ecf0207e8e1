//! The program `claimpicture`: the input of a replay on standard input, its picture on standard output.
#![tactic(auto)]

use program_io::{KeptReader, ProgramFault, ReaderSource, Spelled, WriterSink, why_refused};
use run_picture::{Extent, PictureStop, Wish, draw_replay, wish_of};
use std::env;
use std::io::{IsTerminal, Read};
use std::process::ExitCode;

/// The variable of the environment that asks for what was wrong in a refused input.
const EXPLAIN: &str = "CLAIMSWITCH_EXPLAIN";

/// Why the program ends, and what was wrong in its input, where that is told.
#[derive(Drop)]
struct Stopped {
    stop: PictureStop,
    why: Option<String>,
}

impl From<PictureStop> for Stopped {
    fn from(stop: PictureStop) -> Stopped {
        Stopped { stop, why: None }
    }
}

fn main(rt: HostRuntime) -> ExitCode {
    match run(&rt) {
        Ok(()) => ExitCode::SUCCESS,
        Err(Stopped { stop, why }) => {
            let _ = eprintln!(rt; "claimpicture: {stop}");
            if let Some(why) = why {
                let _ = eprintln!(rt; "claimpicture: {why}");
            }
            ExitCode::from(stop.status())
        }
    }
}

/// Does what the words of the command line ask for.
fn run(rt: &HostRuntime) -> Result<(), Stopped> {
    match asked(rt)? {
        Wish::Draw(extent) => draw(rt, extent),
        Wish::Tell(text) => {
            let _ = print!(rt; "{text}");
            Ok(())
        }
    }
}

/// What the words of the command line ask for.
fn asked(rt: &HostRuntime) -> Result<Wish, PictureStop> {
    let alloc = rt.alloc();
    let Ok(words) = env::args(rt) else {
        return Err(PictureStop::Usage);
    };
    let words: Vec<String> = words.collect(alloc)?;
    wish_of(alloc, words.as_slice())
}

/// Draws the run of standard input on standard output.
fn draw(rt: &HostRuntime, extent: Extent) -> Result<(), Stopped> {
    let alloc = rt.alloc();
    let mut reader = KeptReader::new(alloc, rt.stdin(), is_explained(rt));
    match draw_from(rt, &mut reader, extent) {
        Ok(()) => Ok(()),
        Err(fault) => {
            let why = match reader.kept() {
                Some(input) => why_refused(alloc, Spelled::LivingEvents, input, fault).unwrap_or(
                    None,
                ),
                None => None,
            };
            Err(Stopped {
                stop: PictureStop::Fault(fault),
                why,
            })
        }
    }
}

/// Draws the run of what a reader gives on standard output.
fn draw_from<R: Read>(
    rt: &HostRuntime,
    reader: &mut R,
    extent: Extent,
) -> Result<(), ProgramFault> {
    let mut writer = rt.stdout();
    let mut source = ReaderSource::new(reader);
    let mut sink = WriterSink::new(&mut writer);
    draw_replay(rt.alloc(), &mut source, &mut sink, extent)
}

/// Whether people are told what was wrong: standard error is a terminal, or they ask for it.
fn is_explained(rt: &HostRuntime) -> bool {
    rt.stderr().is_terminal() || !matches!(env::var(rt, EXPLAIN), Err(env::VarError::NotPresent))
}
