//! The fields of a row.

ghost use Rattle.std.specs.Prelude.{◌≡◌};
ghost use Rattle.table_text.specs.Members.{Number as NumberSeen, Text as TextSeen, Named as NamedSeen, Flag as FlagSeen, Nothing as NothingSeen, number_or_nothing};
ghost use Rattle.table_text.specs.Seen.{field_seen};

/// The value of a field.
#[derive(Clone, Copy)]
pub enum Cell<'a> {
    /// A number, in decimal.
    Number(u64),
    /// Bytes, as they are printed.
    Text(&'a [u8]),
    /// A word, as it is printed.
    Word(&'static [u8]),
    /// Letters, and a number after them.
    Named(&'static [u8], u64),
    /// `true` or `false`.
    Flag(bool),
    /// No value: nothing in CSV, `null` in JSON.
    Nothing,
}

/// A value and the name of its column.
#[derive(Clone, Copy)]
pub struct Field<'a> {
    pub name: &'static [u8],
    pub cell: Cell<'a>,
}

impl<'a> Field<'a> {
    /// A number.
    pub fn number(name: &'static [u8], number: u64) -> Field<'a>
        ensures { field_seen result ≡ record { name = name.now; value = NumberSeen number } }
    {
        Field {
            name,
            cell: Cell::Number(number),
        }
    }

    /// A number, where there is one.
    pub fn number_or_nothing(name: &'static [u8], number: Option<u64>) -> Field<'a>
        ensures { field_seen result ≡ record { name = name.now; value = number_or_nothing number } }
    {
        match number {
            Some(number) => Field::number(name, number),
            None => Field::nothing(name),
        }
    }

    /// Bytes, as they are printed.
    pub fn text(name: &'static [u8], bytes: &'a [u8]) -> Field<'a>
        ensures { field_seen result ≡ record { name = name.now; value = TextSeen bytes.now } }
    {
        Field {
            name,
            cell: Cell::Text(bytes),
        }
    }

    /// A word, as it is printed.
    pub fn word(name: &'static [u8], word: &'static [u8]) -> Field<'a>
        ensures { field_seen result ≡ record { name = name.now; value = TextSeen word.now } }
    {
        Field {
            name,
            cell: Cell::Word(word),
        }
    }

    /// Letters, and a number after them.
    pub fn named(name: &'static [u8], letters: &'static [u8], number: u64) -> Field<'a>
        ensures { field_seen result ≡ record { name = name.now; value = NamedSeen letters.now number } }
    {
        Field {
            name,
            cell: Cell::Named(letters, number),
        }
    }

    /// Whether something holds.
    pub fn flag(name: &'static [u8], holds: bool) -> Field<'a>
        ensures { field_seen result ≡ record { name = name.now; value = FlagSeen holds } }
    {
        Field {
            name,
            cell: Cell::Flag(holds),
        }
    }

    /// No value.
    fn nothing(name: &'static [u8]) -> Field<'a>
        ensures { field_seen result ≡ record { name = name.now; value = NothingSeen } }
    {
        Field {
            name,
            cell: Cell::Nothing,
        }
    }
}
