//! The program `claimdecode`: messages on standard input, a description of each on standard output; or the other way round.
#![tactic(auto)]

mod stop;
mod words;

use crate::stop::Stop;
use crate::words::{Asked, asked_in};
use message_lines::{answer_input, answer_line, next_line, tell_input, tell_line};
use message_words::{ByteSource, LineSource, Page, ReaderBytes, Spelling};
use std::env;
use std::io::Write;
use std::process::ExitCode;

fn main(rt: HostRuntime) -> ExitCode {
    match run(&rt) {
        Ok(true) => ExitCode::SUCCESS,
        Ok(false) => ExitCode::from(1),
        Err(stop) => stop.told(&rt),
    }
}

/// Does what the words ask for; whether each line spelled or described a message.
fn run(rt: &HostRuntime) -> Result<bool, Stop> {
    let Ok(words) = env::args(rt) else {
        return Err(Stop::Usage);
    };
    let words: Vec<String> = words.collect(rt.alloc())?;
    let asked = asked_in(rt.alloc(), words.as_slice())?;
    let mut source = LineSource::new(rt.alloc(), ReaderBytes::new(rt.stdin()));
    if asked.manner.spelling == Spelling::Raw {
        return whole(rt, asked, &mut source);
    }
    each_line(rt, asked, &mut source)
}

/// Takes the whole input as one message, or as the description of one.
fn whole<R: ByteSource + Drop>(
    rt: &HostRuntime,
    asked: Asked,
    source: &mut LineSource<R>,
) -> Result<bool, Stop> {
    if let Err(fault) = source.read_all() {
        return Err(Stop::of_input(fault, 1));
    }
    let alloc = rt.alloc();
    if !asked.encode {
        let mut page = Page::new(alloc, asked.style);
        tell_input(alloc, asked.manner, source.line(), &mut page)?;
        put_text(page.as_slice(), &mut rt.stdout())?;
        return Ok(true);
    }
    let mut text = Vec::new(alloc);
    let good = answer_input(alloc, source.line(), &mut text)?;
    if good {
        put_text(text.as_slice(), &mut rt.stdout())?;
    } else {
        put_text(b"claimdecode: ", &mut rt.stderr())?;
        put_text(text.as_slice(), &mut rt.stderr())?;
    }
    Ok(good)
}

/// Tells of each line, before the next one is read.
fn each_line<R: ByteSource + Drop>(
    rt: &HostRuntime,
    asked: Asked,
    source: &mut LineSource<R>,
) -> Result<bool, Stop> {
    let alloc = rt.alloc();
    let mut page = Page::new(alloc, asked.style);
    let mut writer = rt.stdout();
    let mut all = true;
    let mut line = 0;
    for _ in 0..u64::MAX {
        match next_line(source, &mut line) {
            Ok(true) => {}
            Ok(false) => return Ok(all),
            Err(fault) => return Err(Stop::of_input(fault, line)),
        }
        if asked.encode {
            let mut text = Vec::new(alloc);
            all &= answer_line(alloc, asked.manner.spelling, line, source.line(), &mut text)?;
            put_text(text.as_slice(), &mut writer)?;
        } else {
            all &= tell_line(alloc, asked.manner, line, source.line(), &mut page)?;
            put_text(page.as_slice(), &mut writer)?;
        }
    }
    Ok(all)
}

/// Writes a text and hands it on.
fn put_text<W: Write>(text: &[u8], writer: &mut W) -> Result<(), Stop> {
    if writer.write_all(text).is_err() || writer.flush().is_err() {
        return Err(Stop::Write);
    }
    Ok(())
}
