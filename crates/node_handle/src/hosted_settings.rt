//! Settings in their host's hands.

ghost use Rattle.std.specs.Prelude.{◌≡◌};
ghost use Rattle.std.specs.Arc.{arc_value};

use node_service::SharedSettings;
use std::marker::Model;
use std::sync::Arc;

/// Settings, as one of those who share them has them. The nodes that were opened under them share them too.
#[derive(Drop)]
pub struct HostedSettings {
    shared: Arc<SharedSettings>,
}

impl Model for HostedSettings {
    ghost use Rattle.std.specs.Arc.{arc_value};
    ghost use Rattle.node_service.specs.Opened.{Sharing};

    ghost Value = { Sharing };

    ghost view = { λ h. arc_value h.shared };
}

impl HostedSettings {
    /// Settings that were just opened.
    pub(crate) fn of(shared: Arc<SharedSettings>) -> HostedSettings
        ensures { result ≡ arc_value shared }
    {
        HostedSettings { shared }
    }

    /// What is shared.
    pub(crate) fn shared(&self) -> &Arc<SharedSettings>
        ensures { arc_value result.now ≡ self.now }
    {
        &self.shared
    }
}
