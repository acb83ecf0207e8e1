//! Days of the calendar as eight digits.

ghost use Rattle.std.specs.Prelude.{◌≡◌, ◌+◌, ◌-◌, ◌*◌, ◌≤◌, IsTrue};
ghost use Rattle.d0_header.specs.Field.{is_digit};
ghost use Rattle.d0_header.specs.Date.{is_day, is_calendar_date};

use crate::field::are_digits;
use jiff::civil::Date;

/// Whether eight bytes, CCYYMMDD (401-D1), are digits that name a day of the Gregorian calendar,
/// which is carried back to the year 0000.
#[tactic(auto, unfolding(crate::specs::Date::is_calendar_date))]
pub fn is_date(date: &[u8; 8]) -> bool
    ensures { result ≡ is_calendar_date date.now }
{
    if !are_digits(date) {
        return false;
    }
    let century = two_digits(date[0], date[1]);
    let year = two_digits(date[2], date[3]);
    let month = two_digits(date[4], date[5]);
    let day = two_digits(date[6], date[7]);
    is_day(century as u16 * 100 + year as u16, month, day)
}

/// Whether the calendar has this day.
fn is_day(year: u16, month: u8, day: u8) -> bool
    requires years { year ≤ 9999 }
    requires months { month ≤ 99 }
    requires days { day ≤ 99 }
    ensures { result ≡ is_day year month day }
{
    Date::new(year as i16, month as i8, day as i8).is_ok()
}

/// The number that two digits name.
fn two_digits(tens: u8, ones: u8) -> u8
    requires first { IsTrue (is_digit tens) }
    requires second { IsTrue (is_digit ones) }
    ensures { result ≡ 10 * (tens - 48) + (ones - 48) }
{
    10 * (tens - b'0') + (ones - b'0')
}
