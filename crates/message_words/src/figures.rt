//! Numbers as they are written for people.

ghost use Rattle.std.specs.Prelude.{◌≡◌, ◌++◌};
ghost use Rattle.std.specs.Fmt.{decimal};
ghost use Rattle.message_words.specs.Figures.{dollars, last_digit, minus, point_three, point_two, units};
ghost use Rattle.message_words.specs.Written.{Takes};

use crate::text::Text;

impl Text {
    /// Appends thousandths of a unit as units.
    #[tactic(auto, unfolding(crate::specs::Figures::units))]
    pub(crate) fn units(&mut self, thousandths: u64)
        ensures { Takes (units thousandths) self.old self.new }
    {
        self.number(thousandths / 1000);
        self.thousandths(thousandths % 1000);
        self.put(" units");
    }

    /// Appends a point and the last three digits of a number.
    fn thousandths(&mut self, number: u64)
        ensures { Takes (point_three number) self.old self.new }
    {
        self.bytes(&[b'.', digit(number / 100), digit(number / 10), digit(number)]);
    }

    /// Appends cents as dollars, as `-1.23`.
    #[tactic(auto, unfolding(crate::specs::Figures::dollars))]
    pub(crate) fn dollars(&mut self, cents: i64)
        ensures { Takes (dollars cents) self.old self.new }
    {
        self.put(minus(cents));
        self.number(cents.unsigned_abs() / 100);
        self.hundredths(cents.unsigned_abs() % 100);
    }

    /// Appends a point and the last two digits of a number.
    fn hundredths(&mut self, number: u64)
        ensures { Takes (point_two number) self.old self.new }
    {
        self.bytes(&[b'.', digit(number / 10), digit(number)]);
    }

    /// Appends words, and a number after them.
    pub(crate) fn numbered(&mut self, words: &str, number: u64)
        ensures { Takes (words.now ++ decimal number) self.old self.new }
    {
        self.put(words);
        self.number(number);
    }

    /// Appends words, and bytes after them.
    pub(crate) fn worded(&mut self, words: &str, bytes: &[u8])
        ensures { Takes (words.now ++ bytes.now) self.old self.new }
    {
        self.put(words);
        self.bytes(bytes);
    }

    /// Appends bytes between words.
    pub(crate) fn between(&mut self, front: &str, bytes: &[u8], behind: &str)
        ensures { Takes (front.now ++ bytes.now ++ behind.now) self.old self.new }
    {
        self.put(front);
        self.bytes(bytes);
        self.put(behind);
    }

    /// Appends words between bytes.
    pub(crate) fn worded_behind(&mut self, front: &[u8], words: &str, bytes: &[u8])
        ensures { Takes (front.now ++ words.now ++ bytes.now) self.old self.new }
    {
        self.bytes(front);
        self.put(words);
        self.bytes(bytes);
    }
}

/// The sign in front of an amount.
fn minus(cents: i64) -> &'static str
    ensures { result.now ≡ minus cents }
{
    if cents < 0 { "-" } else { "" }
}

/// The last digit of a number.
fn digit(number: u64) -> u8
    ensures { result ≡ last_digit number }
{
    b'0' + (number % 10) as u8
}
