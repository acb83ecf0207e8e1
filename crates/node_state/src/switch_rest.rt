//! A switch at rest.

ghost use Rattle.std.specs.Prelude.{◌≡◌};
ghost use Rattle.switch_node.specs.Bytes.{cap_codec};
ghost use Rattle.node_state.specs.Resting.{switch_record};

use std::marker::Model;
use switch_node::{SwitchSettings, cap_bytes};

/// What is kept of a switch that stops: its settings, and the bytes of their cap.
#[derive(Drop)]
pub struct SwitchRest {
    settings: SwitchSettings,
    bytes: [u8; 4],
}

impl Model for SwitchRest {
    ghost use Rattle.std.specs.Prelude.{ℕ, ◌≡◌};
    ghost use Rattle.switch_node.specs.Bytes.{cap_codec};

    ghost Value = { ℕ };

    ghost view = { λ s. s.settings };

    ghost invariant = { λ s. (s.bytes ≡ cap_codec.text s.settings) × cap_codec.Fits s.settings };
}

impl SwitchRest {
    /// What is kept of a switch with these settings.
    pub(crate) fn new(settings: SwitchSettings) -> SwitchRest
        ensures { result ≡ settings }
    {
        SwitchRest {
            settings,
            bytes: cap_bytes(settings),
        }
    }

    /// The settings with which it starts.
    pub(crate) fn settings(&self) -> SwitchSettings
        ensures { result ≡ self.now }
    {
        self.settings
    }

    /// Its record, where its world gave it these settings: no byte where they are its own, and else its cap.
    pub(crate) fn record_under(&self, given: SwitchSettings) -> &[u8]
        ensures record { result.now ≡ switch_record given self.now }
        ensures fits { cap_codec.Fits self.now }
    {
        if self.settings.cap() == given.cap() {
            &[]
        } else {
            &self.bytes
        }
    }
}
