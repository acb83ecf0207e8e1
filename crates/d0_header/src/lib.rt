//! The fixed headers of an NCPDP Telecommunication D.0 transmission.
//! A request begins with 56 bytes and a response with 31, fields of fixed width without separators.
//! A header value is made of bytes that pass every test, so each of its fields is known to be sound.
#![tactic(auto)]

mod date;
mod fault;
mod field;
mod laws;
mod request;
mod response;

pub use date::is_date;
pub use fault::HeaderFault;
pub use laws::{request_text_laws, response_text_laws};
pub use request::RequestHeader;
pub use response::ResponseHeader;
