//! One node with its log beside it, and the same behind a lock.

use crate::threads::commands::event_of;
use crate::threads::settings::settings_named;
use crate::threads::words::{read_count, read_node};
use case_files::{CaseFile, Runner, Told};
use envelope::TxnId;
use input_text::{Lines, split_word};
use node_log::is_there;
use node_threads::{Held, Post, Till};
use octets::Octets;
use std::alloc::{AllocError, Global};
use std::sync::{Arc, Wait};
use world_setup::{Call, CheckedSettings, Event, Fault, Node, WorldFault, WorldSettings};

/// Runs rows about one node.
pub(crate) fn run<T: Wait>(
    rt: &T,
    runner: &mut Runner,
    files: &[CaseFile],
    file: &CaseFile,
) -> Result<(), AllocError> {
    let mut holding = Holding {
        files,
        shared: None,
        held: None,
        post: None,
        till: None,
    };
    run_rows(rt, runner, file, &mut holding)
}

/// Runs all rows of a file.
fn run_rows<T: Wait>(
    rt: &T,
    runner: &mut Runner,
    file: &CaseFile,
    holding: &mut Holding<'_>,
) -> Result<(), AllocError> {
    let alloc = runner.alloc();
    for line in Lines::new(file.bytes()) {
        if let Some(row) = runner.row(file, line)? {
            holding.tell(rt, runner.told(), alloc, row.word(), row.argument());
            runner.compare(file, line.number, &row)?;
        }
    }
    runner.end(file)
}

/// One node.
#[derive(Drop)]
struct Holding<'a> {
    files: &'a [CaseFile],
    shared: Option<Arc<CheckedSettings>>,
    held: Option<Held>,
    post: Option<Post>,
    till: Option<Till>,
}

impl Holding<'_> {
    /// Tells what comes of a row.
    fn tell<T: Wait>(
        &mut self,
        rt: &T,
        told: &mut Told,
        alloc: Global,
        word: &str,
        argument: &[u8],
    ) {
        match word {
            "share" => self.share(told, alloc, argument),
            "hold" => self.hold(told, alloc, argument),
            "post" => self.post(told, alloc, argument),
            "post-call" => self.post_call(rt, told, alloc, argument),
            _ => match &mut self.held {
                Some(held) => tell(told, alloc, held, &mut self.till, word, argument),
                None => told.refuse(),
            },
        }
    }

    /// Shares the settings of a name.
    fn share(&mut self, told: &mut Told, alloc: Global, name: &[u8]) {
        match settings_named(alloc, self.files, name) {
            Some(settings) => match shared(alloc, settings) {
                Ok(shared) => {
                    self.shared = shared;
                    told.word("ok");
                }
                Err(fault) => told.named(fault),
            },
            None => told.refuse(),
        }
    }

    /// Opens a node, and a till of the pharmacy where it is one.
    fn hold(&mut self, told: &mut Told, alloc: Global, name: &[u8]) {
        let node = read_node(name);
        self.till = match node {
            Node::Pharmacy(number) => Some(Till::new(alloc, number)),
            _ => None,
        };
        self.held = match &self.shared {
            Some(shared) => held(alloc, shared, node),
            None => None,
        };
        told.word(if self.held.is_some() { "ok" } else { "none" });
    }

    /// Opens a node behind a lock.
    fn post(&mut self, told: &mut Told, alloc: Global, name: &[u8]) {
        self.post = match &self.shared {
            Some(shared) => posted(alloc, shared, read_node(name)),
            None => None,
        };
        told.word(if self.post.is_some() { "ok" } else { "none" });
    }

    /// Makes a call on the node behind the lock.
    fn post_call<T: Wait>(&self, rt: &T, told: &mut Told, alloc: Global, line: &[u8]) {
        match (&self.post, call_of(alloc, line)) {
            (Some(post), Some(call)) => tell_done(told, post.call(rt, alloc, call)),
            _ => told.refuse(),
        }
    }
}

/// Settings as they are shared, or why they are not.
fn shared(
    alloc: Global,
    settings: WorldSettings,
) -> Result<Option<Arc<CheckedSettings>>, WorldFault> {
    match CheckedSettings::new(alloc, settings) {
        Ok(shared) => Ok(Arc::new(alloc, shared).ok()),
        Err(fault) => Err(fault),
    }
}

/// A node as it opens, where it is there.
fn held(alloc: Global, shared: &Arc<CheckedSettings>, node: Node) -> Option<Held> {
    if !is_there(shared.settings(), node) {
        return None;
    }
    Held::new(alloc, shared, node).ok()
}

/// A node as it opens behind a lock, where it is there.
fn posted(alloc: Global, shared: &Arc<CheckedSettings>, node: Node) -> Option<Post> {
    if !is_there(shared.settings(), node) {
        return None;
    }
    Post::new(alloc, shared, node).ok()
}

/// The call of an event that is no delivery, whichever node it is made on.
fn call_of(alloc: Global, line: &[u8]) -> Option<Call> {
    match event_of(alloc, line) {
        Some(Event::Submit { pharmacy: _, text }) => Some(Call::Submit(text)),
        Some(Event::Tick { .. }) => Some(Call::Tick),
        Some(Event::Stop(_)) => Some(Call::Stop),
        Some(Event::Start(_)) => Some(Call::Start),
        _ => None,
    }
}

/// Tells what comes of a row about a node.
fn tell(
    told: &mut Told,
    alloc: Global,
    held: &mut Held,
    till: &mut Option<Till>,
    word: &str,
    argument: &[u8],
) {
    match word {
        "call" => match call_of(alloc, argument) {
            Some(call) => tell_done(told, held.call(alloc, call)),
            None => told.refuse(),
        },
        "restart" => tell_done(told, held.restart(alloc)),
        "sent" => tell_sent(told, held),
        "answer" => tell_answer(told, alloc, held, argument),
        _ => match till {
            Some(till) => tell_till(told, alloc, held, till, word, argument),
            None => told.refuse(),
        },
    }
}

/// Tells how a call ended.
fn tell_done(told: &mut Told, done: Result<(), Fault>) {
    match done {
        Ok(()) => told.word("ok"),
        Err(fault) => {
            told.word("refused");
            told.word(fault.name());
        }
    }
}

/// Tells to whom the packets went that the last call sent.
fn tell_sent(told: &mut Told, held: &Held) {
    told.field("packets", held.last_sent().len());
    for sent in held.last_sent() {
        told.named(sent.to);
    }
}

/// Tells the answer that a node holds for a number of pharmacy 1.
fn tell_answer(told: &mut Told, alloc: Global, held: &Held, argument: &[u8]) {
    match read_count(argument) {
        Some(number) => match TxnId::new(1, number) {
            Some(id) => match held.answer(alloc, id) {
                Ok(answer) => tell_bytes(told, answer),
                Err(_) => told.refuse(),
            },
            None => told.refuse(),
        },
        None => told.refuse(),
    }
}

/// Tells bytes, where there are any.
pub(crate) fn tell_bytes(told: &mut Told, bytes: Option<Octets>) {
    match bytes {
        Some(bytes) => told.bytes(bytes.as_slice()),
        None => told.word("none"),
    }
}

/// Tells what comes of a row about a pharmacy and the till of its caller.
fn tell_till(
    told: &mut Told,
    alloc: Global,
    held: &mut Held,
    till: &mut Till,
    word: &str,
    argument: &[u8],
) {
    match word {
        "submit" => submit(told, alloc, held, till, argument),
        "receipts" => {
            told.shown(till.receipts().len());
            for receipt in till.receipts() {
                told.shown(receipt.number());
            }
        }
        "receipt" => tell_receipt(told, till, argument),
        _ => told.refuse(),
    }
}

/// Submits a request for the caller with the till.
fn submit(told: &mut Told, alloc: Global, held: &mut Held, till: &mut Till, request: &[u8]) {
    if !held.is_of(Node::Pharmacy(till.pharmacy())) {
        return told.refuse();
    }
    match held.submit(alloc, till, request) {
        Ok(number) => told.shown(number),
        Err(fault) => {
            told.word("refused");
            told.word(fault.name());
        }
    }
}

/// Tells the request of the receipt of a number.
pub(crate) fn tell_receipt(told: &mut Told, till: &Till, argument: &[u8]) {
    let (digits, _) = split_word(argument).unwrap_or((argument, b""));
    match read_count(digits) {
        Some(number) => {
            told.truth(till.has(number));
            for receipt in till.receipts() {
                if receipt.number() == number {
                    told.bytes(receipt.request());
                }
            }
        }
        None => told.refuse(),
    }
}
