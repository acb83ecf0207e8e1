//! What always remains possible: from every world that events lead to, whatever was lost, repeated, stopped or
//! forgotten, an open entry can still be answered. It has definitions and theorems over the model, and no code.
//! They say what can happen, and not that a network will deliver.
#![tactic(auto)]

mod everyone;
mod quiet;
mod room;
mod settle;
mod turns;

pub use everyone::all_open_entries_recover;
pub use quiet::settled_pharmacies_are_quiet;
pub use room::{
    a_plan_change_lets_it_be_rejected, clearing_the_product_is_such_a_change,
    entries_with_room_recover, every_advice_suffices, full_books_never_answer,
    room_and_serials_suffice, without_serials_no_answer,
};
pub use settle::{nobody_else_is_touched, open_entries_recover};
pub use turns::{listed_switches_get_their_turn, one_listed_switch_suffices};
