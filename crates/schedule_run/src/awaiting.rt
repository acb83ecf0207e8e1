//! Waiting for the answer of a request.

ghost use Rattle.std.specs.Prelude.{IfOk};
ghost use Rattle.node_logged.specs.TillSeen.{till_seen};
ghost use Rattle.schedule_run.specs.Hearing.{ComesOf};

use node_threads::{Status, StatusFault, System, Till};
use octets::Octets;
use std::alloc::AllocError;
use std::sync::Wait;
use std::thread;
use std::time::{Clock, Duration};
use world_setup::Fault;

/// How many turns are waited at most (own): a look at the request and a yield each.
const TURNS: u32 = 10_000;
/// For how many millionths of a second a turn gives way at least (own). A mere yield comes back at once where a processor is free, and
/// ten thousand of them are over before a busy machine has woken the workers.
const PAUSE: u64 = 100;
/// After how many turns the pharmacy's time goes on by a tick (own).
const TURNS_A_TICK: u32 = 100;

/// What came of waiting.
#[derive(Drop)]
pub(crate) enum Awaited {
    /// The answer.
    Settled(Octets),
    /// No answer came in time.
    Open,
    /// The caller has no receipt with this number.
    NotThisTill,
}

/// Waits for the answer of the request of a number, for at most 10,000 turns, with a tick of the pharmacy after each
/// hundredth.
///
/// # Errors
/// Where memory is refused.
pub(crate) fn wait_for<T: Wait + Clock>(
    rt: &T,
    system: &System,
    till: &mut Till,
    number: u64,
) -> Result<Awaited, AllocError>
    ensures { IfOk result (λ awaited. ComesOf number (till_seen till.old) awaited (till_seen till.new)) }
{
    for passed in 0..TURNS {
        match look(rt, system, till, number)? {
            Awaited::Open => {}
            told => return Ok(told),
        }
        thread::sleep(rt, Duration::from_micros(PAUSE));
        if passed % TURNS_A_TICK == TURNS_A_TICK - 1 {
            tick(rt, system, till.pharmacy())?;
        }
    }
    look(rt, system, till, number)
}

/// What is known of the request now.
fn look<T: Wait>(
    rt: &T,
    system: &System,
    till: &mut Till,
    number: u64,
) -> Result<Awaited, AllocError>
    ensures { IfOk result (λ awaited. ComesOf number (till_seen till.old) awaited (till_seen till.new)) }
{
    match system.status(rt, till, number) {
        Ok(Status::Settled(answer)) => Ok(Awaited::Settled(answer)),
        Ok(Status::Open) => Ok(Awaited::Open),
        Err(StatusFault::NotThisTill) => Ok(Awaited::NotThisTill),
        Err(StatusFault::OutOfMemory) => Err(AllocError),
    }
}

/// One tick of a pharmacy; a refusal of it is nothing to the one who waits.
fn tick<T: Wait>(rt: &T, system: &System, pharmacy: u16) -> Result<(), AllocError> {
    match system.tick(rt, pharmacy) {
        Err(Fault::OutOfMemory) => Err(AllocError),
        _ => Ok(()),
    }
}
