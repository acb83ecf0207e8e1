//! The folder in which the log of a node stands: in which order a program asks the system for it. A log is taken for this
//! process (`take_to_serve`, `take_to_close`, `take_to_mend`), closed so that its node goes on in a new one (`close_log`), and
//! cut at a damage (`mend_log`), over any folder (`Folder`); `Disk` is that of a real file. Who dies while a log is closed leaves
//! the one log or the other (`closing_leaves_a_log`). What is told of a damaged log, also of what still stands behind the damage
//! (`runs_from`), is a list of lines (`repair_log`). What stands before a log in its file is read by `front_of`, and a file that
//! is to be new is written by `write_new`.
#![tactic(auto)]

mod closing;
mod cutting;
mod disk;
mod fault;
mod folder;
mod front;
mod laws;
mod mending;
mod repairing;
mod taking;
mod telling;
mod undamaged;
mod writing;

pub use closing::{Closing, close_log};
pub use disk::Disk;
pub use fault::{CloseFault, MendFault, RepairFault, TakeFault, Unrepaired, WriteFault};
pub use folder::Folder;
pub use front::{Front, OpenedFile, Readable, front_of};
pub use laws::closing_leaves_a_log;
pub use mending::{Condition, CutOff, Mended, mend_log};
pub use repairing::{Repaired, repair_log};
pub use taking::{take_to_close, take_to_mend, take_to_serve};
pub use telling::Line;
pub use undamaged::{Run, records_before, runs_from};
pub use writing::{NewFile, OutFile, write_new};
