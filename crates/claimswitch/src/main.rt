//! The program `claimswitch`: one word, standard input and standard output.
#![tactic(auto)]

ghost use Rattle.claimswitch.specs.declared.End.TheVariants as end;

use payer_book::HashKeys;
use program_io::{
    KeptReader, ProgramFault, ReaderSource, Spelled, Stop, Word, WriterSink, why_refused, word_of,
};
use read_and_replay::{read_claims, replay};
use schedule_run::{RunFault, run_schedule_keyed};
use std::alloc::{AllocError, Global};
use std::fmt::{Display, Formatter};
use std::io::{IsTerminal, Read};
use std::mem::ManuallyDrop;
use std::process::ExitCode;
use std::sync::Wait;
use std::thread::Threads;
use std::time::Clock;
use std::{env, fmt};

/// The variable of the environment that asks for what was wrong in a refused input.
const EXPLAIN: &str = "CLAIMSWITCH_EXPLAIN";

/// Why the program ends without having written all.
#[derive(Clone, Copy)]
enum End {
    /// The words are wrong, or a program that waits for nobody stopped.
    Stop(Stop),
    /// A run on threads stopped.
    Run(RunFault),
}

impl End {
    /// The exit status.
    fn status(self) -> u8 {
        match self {
            End::Stop(stop) => stop.status(),
            End::Run(_) => 1,
        }
    }

    /// The fault of the input, where it has one.
    fn fault(self) -> Option<ProgramFault> {
        match self {
            End::Stop(Stop::Fault(fault)) | End::Run(RunFault::Program(fault)) => Some(fault),
            End::Stop(_) | End::Run(_) => None,
        }
    }
}

impl From<ProgramFault> for End {
    ghost use Rattle.std.specs.Prelude.{◌≡◌};
    ghost use Rattle.program_io.specs.declared.words.Stop.TheVariants as stop;

    ghost from_gives = { λ fault e. e ≡ end.Stop (stop.Fault fault) };

    fn from(fault: ProgramFault) -> End {
        End::Stop(Stop::Fault(fault))
    }
}

impl From<RunFault> for End {
    ghost use Rattle.std.specs.Prelude.{◌≡◌};

    ghost from_gives = { λ fault e. e ≡ end.Run fault };

    fn from(fault: RunFault) -> End {
        End::Run(fault)
    }
}

impl Display for End {
    fn fmt<W: fmt::Write>(&self, f: &mut Formatter<W>) -> fmt::Result {
        match self {
            End::Stop(stop) => write!(f, "{stop}"),
            End::Run(fault) => write!(f, "{fault}"),
        }
    }
}

/// Why the program ends, and what was wrong in its input, where that is told.
#[derive(Drop)]
struct Stopped {
    end: End,
    why: Option<String>,
}

impl From<Stop> for Stopped {
    ghost use Rattle.std.specs.Prelude.{◌≡◌, None};

    ghost from_gives = { λ fault stopped. stopped ≡ record { end = end.Stop fault; why = None } };

    fn from(stop: Stop) -> Stopped {
        Stopped {
            end: End::Stop(stop),
            why: None,
        }
    }
}

impl From<AllocError> for Stopped {
    fn from(refused: AllocError) -> Stopped {
        Stopped::from(Stop::from(refused))
    }
}

fn main(rt: HostRuntime) -> ExitCode {
    match run(&rt, &rt) {
        Ok(()) => ExitCode::SUCCESS,
        Err(Stopped { end, why }) => {
            let _ = eprintln!(rt; "claimswitch: {end}");
            if let Some(why) = why {
                let _ = eprintln!(rt; "claimswitch: {why}");
            }
            ExitCode::from(end.status())
        }
    }
}

/// Does what the word of the command line asks for. A run has its threads from `threads`.
fn run<T>(rt: &HostRuntime, threads: &T) -> Result<(), Stopped>
where
    T: Threads + Wait + Clock + Copy + Send + 'static,
{
    let alloc = rt.alloc();
    let Ok(words) = env::args(rt) else {
        return Err(Stopped::from(Stop::Usage));
    };
    let words: Vec<String> = words.collect(alloc)?;
    let word = word_of(alloc, words.as_slice())?;
    let mut reader = KeptReader::new(alloc, rt.stdin(), is_explained(rt));
    match serve(rt, threads, word, &mut reader) {
        Ok(()) => Ok(()),
        Err(end) => {
            let why = match (end.fault(), reader.kept()) {
                (Some(fault), Some(input)) => why(alloc, word, input, fault).unwrap_or(None),
                _ => None,
            };
            Err(Stopped { end, why })
        }
    }
}

/// What is wrong in the input that was refused.
fn why(
    alloc: Global,
    word: Word,
    input: &[u8],
    fault: ProgramFault,
) -> Result<Option<String>, AllocError> {
    match word {
        Word::Read => read_and_replay::why_refused(alloc, input, fault),
        Word::Replay => why_refused(alloc, Spelled::Events, input, fault),
        Word::Run => why_refused(alloc, Spelled::Commands, input, fault),
    }
}

/// Answers standard input on standard output. The process ends after it, so the world that a replay leaves stays where it is:
/// giving it back piece by piece is a fifteenth of the time of a long one.
fn serve<T, R: Read>(rt: &HostRuntime, threads: &T, word: Word, reader: &mut R) -> Result<(), End>
where
    T: Threads + Wait + Clock + Copy + Send + 'static,
{
    let alloc = rt.alloc();
    let keys = hash_keys(rt);
    let mut writer = rt.stdout();
    match word {
        Word::Read => {
            let mut source = ReaderSource::new(reader);
            let mut sink = WriterSink::new(&mut writer);
            Ok(read_claims(alloc, &keys, &mut source, &mut sink)?)
        }
        Word::Replay => {
            let mut source = ReaderSource::new(reader);
            let mut sink = WriterSink::new(&mut writer);
            let mut left = None;
            let done = replay(alloc, &keys, &mut source, &mut sink, &mut left);
            let _stays = ManuallyDrop::new(left);
            Ok(done?)
        }
        Word::Run => Ok(run_schedule_keyed(threads, alloc, &keys, reader, &mut writer)?),
    }
}

/// What the maps of books hash with: keys that nobody knows. Where the system has no random bytes to give, the fixed keys
/// serve, since no answer hangs on them.
fn hash_keys(rt: &HostRuntime) -> HashKeys {
    match HashKeys::random(rt) {
        Ok(keys) => keys,
        Err(_) => HashKeys::fixed(),
    }
}

/// Whether people are told what was wrong: standard error is a terminal, or they ask for it.
fn is_explained(rt: &HostRuntime) -> bool {
    rt.stderr().is_terminal() || !matches!(env::var(rt, EXPLAIN), Err(env::VarError::NotPresent))
}
