//! The changes of payers' plans, of pharmacies' rules of retries and of switches' caps, and their tables.

pub(crate) mod caps;
pub(crate) mod changes;
pub(crate) mod prices;
pub(crate) mod retries;
pub(crate) mod tables;
pub(crate) mod terms;
