//! The names of columns that reports read.

ghost use Rattle.std.specs.Prelude.{◌≡◌};
ghost use Rattle.claim_reports.specs.Names.{name_text};

/// The name of a column.
#[derive(Clone, Copy)]
pub(crate) enum Name {
    Answer,
    Authorization,
    Bytes,
    Carries,
    CopayCents,
    CostCents,
    DateOfService,
    FeeCents,
    Fill,
    Node,
    Number,
    PaidCents,
    Payer,
    Pharmacy,
    Prescription,
    ReversedBy,
    RuledAt,
    RuledOn,
    Ruling,
    State,
    Time,
    To,
    Transaction,
}

impl Name {
    /// Its letters.
    pub(crate) fn text(self) -> &'static str
        ensures { result.now ≡ name_text self }
    {
        match self {
            Name::Answer => "answer",
            Name::Authorization => "authorization",
            Name::Bytes => "bytes",
            Name::Carries => "carries",
            Name::CopayCents => "copay_cents",
            Name::CostCents => "cost_cents",
            Name::DateOfService => "date_of_service",
            Name::FeeCents => "fee_cents",
            Name::Fill => "fill",
            Name::Node => "node",
            Name::Number => "number",
            Name::PaidCents => "paid_cents",
            Name::Payer => "payer",
            Name::Pharmacy => "pharmacy",
            Name::Prescription => "prescription",
            Name::ReversedBy => "reversed_by",
            Name::RuledAt => "ruled_at",
            Name::RuledOn => "ruled_on",
            Name::Ruling => "ruling",
            Name::State => "state",
            Name::Time => "time",
            Name::To => "to",
            Name::Transaction => "transaction",
        }
    }
}
