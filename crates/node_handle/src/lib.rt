//! One node in the memory of a caller that knows no Rattle: its handle, and what each call on it makes of the node.
//!
//! A handle has the pointer of the node's box and says no type of it, so that its bytes may lie in a C struct. A call takes
//! the box out, works on it, and puts it back.
#![tactic(auto)]

mod asking;
mod auditing;
mod cutting;
mod describing;
mod handle;
mod heard;
mod hosted;
mod hosted_settings;
mod loose;
mod making;
mod opening;
mod part;
mod payments;
mod reading;
mod refusal;
mod seed;
mod settings_handle;
mod settings_part;
mod typed;
mod waiting;

pub use auditing::audit;
pub use describing::{describe, style_of};
pub use handle::NodeHandle;
pub use hosted::{Hosted, words_wait_for_records};
pub use hosted_settings::HostedSettings;
pub use making::{billing, reversal};
pub use message_making::{PlainBilling, PlainReversal};
pub use part::Part;
pub use payments::PlainPayment;
pub use reading::{print, texts_have_room, unprint};
pub use refusal::{Refusal, number_of};
pub use settings_handle::SettingsHandle;
pub use settings_part::SettingsPart;
pub use typed::{advices_are_asked, packets_are_asked, requests_are_asked};
