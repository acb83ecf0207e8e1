//! From a request to its rulings: each place is judged over the payments that stand and what earlier places change,
//! priced where it has to be, and drafted.

pub(crate) mod changes;
pub(crate) mod drafting;
pub(crate) mod judging;
pub(crate) mod matches;
pub(crate) mod pricing;
