//! The model of the claim switch: what a book, a journal, an in-flight table and the world of all nodes are,
//! step by step, and what holds of every world that events lead to. What each node did in a run, as a log of its own,
//! and which lists of events are an interleaving of such logs: calls are local, packets are never used up, and so one
//! enabled call after another finds an interleaving where there is one. It has definitions and theorems, the limits
//! of settings and the refusals of calls, and no node's code.
#![tactic(auto)]

mod advice;
mod answers;
mod bytes;
mod deliveries;
mod interleavings;
mod limits;
mod local;
mod payments;
mod refusal;
mod replays;
mod tables;

pub use advice::{asking_payers_rule_as_advised, other_payers_ask_nobody};
pub use answers::{
    answers_are_decided, answers_are_whole, decisions_stay, one_answer, requests_are_submitted,
};
pub use bytes::{
    bytes_keep_laws, envelopes_know_no_place, orders_of_requests, readable_requests,
    routes_lead_to_payers,
};
pub use deliveries::deliveries_meet_few_refusals;
pub use interleavings::{
    enabled_calls_lead_on, interleavings_agree, interleavings_are_found, logs_of_interleavings,
};
pub use limits::Limits;
pub use local::{calls_are_local, enabled_calls_stay, equal_packets_serve_alike};
pub use payments::{
    counted_payments_stand, one_standing_payment, reversed_by_owner, standing_payments_are_counted,
};
pub use refusal::{Fault, Refusal};
pub use replays::{asked_calls_are_accepted, logs_are_posted, logs_go_on, logs_replay};
pub use tables::tables_keep_their_cap;
