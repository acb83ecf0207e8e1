//! Crashes: processes that are killed at any moment, disks that forget what was not synced, and words that are said
//! after a sync alone. What the disks hold is a run of the model at every moment, and so is what all memories hold
//! together; so each promise of the model holds of them. Logs may be closed: a process goes on in a new one, which
//! begins with the node that the closed ones make. It has definitions and theorems over the model, and no code.
//! The premises: what a sync put on a disk stays there, each name has one process, and a process says what its
//! synced calls sent and nothing else. Of switches less is asked: `diskless` lets them keep nothing and say at once
//! what they do, `handing` has in their place whoever hands on bytes as they came. Of such networks the logs of
//! pharmacies and payers are explained by themselves (`explained`), and what a pharmacy tells before it keeps it is
//! the answer for good (`told`). Settings may grow meanwhile, and nodes go over one by one (`growing`).
#![tactic(auto)]

mod answers;
mod closed;
mod diskless;
mod explained;
mod fences;
mod growing;
mod handing;
mod payments;
mod runs;
mod steps;
mod told;

pub use answers::{decisions_stay, one_answer, words_stay_true};
pub use closed::closed_logs_go_on;
pub use diskless::{
    disks_without_switches_are_a_run, networks_without_disks_have_worlds, promises_without_disks,
};
pub use explained::{
    disks_have_orders, explained_calls_go_on, explained_orders_are_runs, explained_orders_go_over,
    explanations_are_tested, outside_has_the_logs, runs_are_explained,
};
pub use fences::{candidates_are_replays, fences_make_one_process};
pub use growing::{
    growing_networks_are_runs, growing_networks_have_worlds, growing_networks_keep_promises,
};
pub use handing::{
    answers_whatever_switches_are, any_switches_will_do, files_whatever_switches_are,
    payments_whatever_switches_are,
};
pub use payments::{
    counted_payments_stand, one_standing_payment, reversed_by_owner, standing_payments_are_counted,
};
pub use runs::{
    disks_are_a_run, memories_are_replays, networks_have_worlds, what_is_said_is_recorded,
};
pub use steps::steps_are_moves;
pub use told::{
    a_lost_rejection_gets_another_answer, told_after_two_syncs, told_answers_are_final,
    told_answers_outlive_growth, told_rejections_do_not,
};
