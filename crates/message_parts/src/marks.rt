//! The numbers and texts of envelopes and records.

ghost use Rattle.std.specs.Prelude.{◌≡◌, true};
ghost use Rattle.message_parts.specs.Naming.{spells_number, is_length, mark_names, is_of_record};

/// What a stretch of an envelope's head or of a record is.
#[derive(Clone, Copy, Debug, PartialEq, Eq)]
pub enum Mark {
    /// The two letters that begin it.
    Letters,
    /// The version of the format.
    FormatVersion,
    /// What an envelope carries: 1 a request, 2 an answer.
    Kind,
    /// The number of a pharmacy.
    Pharmacy,
    /// The number of a transaction at its pharmacy.
    Number,
    /// How many bytes the text after it has.
    Length,
    /// How many entries or rows follow.
    Count,
    /// How many products a plan has.
    ProductCount,
    /// 1 where an answer follows, else 0.
    AnswerFlag,
    /// The number of a payer.
    Payer,
    /// The first serial of a book.
    FirstSerial,
    /// An amount of a plan in cents: its fee, its copay or a price's ten-thousandths of a dollar.
    Fee,
    /// What the patient pays, in cents.
    Copay,
    /// A product's price, in ten-thousandths of a dollar a unit.
    Price,
    /// A product of a plan.
    PlanProduct,
    /// After how many ticks a pharmacy sends an entry again.
    Again,
    /// How often it sends an entry to one switch before the next.
    Tries,
    /// How many switches its rule of retries names.
    SwitchCount,
    /// The number of a switch of that rule.
    Switch,
}

impl Mark {
    /// Whether its bytes spell a number.
    pub fn is_number(self) -> bool
        ensures { result ≡ spells_number self }
    {
        !matches!(self, Mark::Letters | Mark::PlanProduct)
    }

    /// Whether a transmission may follow it: its transactions are then counted anew.
    pub fn begins_transmission(self) -> bool
        ensures { result ≡ is_length self }
    {
        matches!(self, Mark::Length)
    }

    /// Its name for people, and in JSON.
    pub fn names(self) -> (&'static str, &'static str)
        ensures words { result.0.now ≡ (mark_names self).words }
        ensures key { result.1.now ≡ (mark_names self).key }
    {
        match self {
            Mark::Letters => ("letters of the format", "letters"),
            Mark::FormatVersion => ("version of the format", "format_version"),
            Mark::Kind => ("kind", "kind"),
            Mark::Pharmacy => ("pharmacy", "pharmacy"),
            Mark::Number => ("number", "number"),
            Mark::Length => ("length of the text behind it", "length"),
            Mark::Count => ("count of entries or rows", "count"),
            _ => self.names_in_record(),
        }
    }

    /// The same for those of records alone.
    fn names_in_record(self) -> (&'static str, &'static str)
        requires { is_of_record self ≡ true }
        ensures words { result.0.now ≡ (mark_names self).words }
        ensures key { result.1.now ≡ (mark_names self).key }
    {
        match self {
            Mark::ProductCount => ("count of products", "product_count"),
            Mark::AnswerFlag => ("answer follows", "answer_follows"),
            Mark::Payer => ("payer", "payer"),
            Mark::FirstSerial => ("first serial", "first_serial"),
            Mark::Fee => ("fee of the plan", "plan_fee"),
            Mark::Copay => ("copay of the plan", "plan_copay"),
            Mark::Price => ("price a unit", "price"),
            Mark::Again => ("ticks before a retry", "again"),
            Mark::Tries => ("tries at one switch", "tries"),
            Mark::SwitchCount => ("count of switches", "switch_count"),
            Mark::Switch => ("switch", "switch"),
            _ => ("product of the plan", "plan_product"),
        }
    }
}
