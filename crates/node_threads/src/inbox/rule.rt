//! The rule of an inbox's queue: nothing that is put is lost, taken twice or made up. Each step of a pass keeps it.

use crate::inbox::mail::Mail;
use crate::inbox::traffic::Traffic;
use crossbeam_channel::protocol::{Lesson, Outcome, Protocol, Split};

/// The rule of the queue, over what is in it and what each pass has put and taken.
pub(super) struct Conservation;

impl Protocol<Mail, Traffic> for Conservation {
    ghost use Rattle.std.specs.Prelude.{[]};
    ghost use Rattle.node_threads.specs.InboxRule.{traffic, Conserved};

    ghost holds = { Conserved };

    ghost first = { traffic [] [] };
}

/// Mail goes in at the back of the queue.
pub(super) struct Adding;

impl Outcome<Mail, Traffic> for Adding {
    ghost use Rattle.node_threads.specs.InboxRule.{Added};

    ghost then = { Added };
}

impl Lesson<Mail, Traffic> for Adding {
    ghost use Rattle.std.specs.Prelude.{⊤};

    ghost fact = { λ own queue. ⊤ };
}

/// The front of the queue goes out.
pub(super) struct Removing;

impl Outcome<Mail, Traffic> for Removing {
    ghost use Rattle.node_threads.specs.InboxRule.{Removed};

    ghost then = { Removed };
}

impl Lesson<Mail, Traffic> for Removing {
    ghost use Rattle.std.specs.Prelude.{⊤};

    ghost fact = { λ own queue. ⊤ };
}

/// A pass is made that has put and taken nothing.
pub(super) struct Beginning;

impl Split<Traffic> for Beginning {
    ghost use Rattle.std.specs.Prelude.{[]};
    ghost use Rattle.node_threads.specs.InboxRule.{traffic};

    ghost left = { λ own. own };

    ghost right = { λ own. traffic [] [] };
}
