//! Why settings are refused. Why a call is refused is [`Fault`](claim_model::Fault).

use thiserror::Error;

/// Why settings were refused.
#[derive(Clone, Copy, Debug, PartialEq, Eq, Error)]
pub enum SettingFault {
    /// A number lies outside its range.
    #[error("a cap is 1 to what the limits allow")]
    BadSetting,
}
