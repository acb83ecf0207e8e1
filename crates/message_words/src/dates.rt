//! Dates in words.

ghost use Rattle.std.specs.Prelude.{◌≡◌, ◌<◌, ◌++◌, codes, length, IsTrue};
ghost use Rattle.d0_header.specs.Date.{digit, is_calendar_date, year_of, month_of, day_of};
ghost use Rattle.message_words.specs.Meanings.{date_meaning, day_words, month_name};
ghost use Rattle.message_words.specs.Written.{Takes};

use crate::text::Text;
use d0_header::is_date;

/// Appends a date with the month by its name.
#[tactic(auto, unfolding(crate::specs::Meanings::date_meaning))]
pub(crate) fn put_date(out: &mut Text, value: &[u8])
    ensures { Takes (date_meaning value.now) out.old out.new }
{
    if is_day(value) {
        put_day(out, day_of(value), month_of(value), year_of(value));
    } else {
        out.put("no day of the calendar");
    }
}

/// Whether a value is eight digits that name a day of the calendar.
#[tactic(auto, unfolding(d0_header::specs::Date::is_calendar_date))]
fn is_day(value: &[u8]) -> bool
    ensures day { result ≡ is_calendar_date value.now }
    ensures size { IsTrue result → length value.now ≡ 8 }
{
    if value.len() != 8 {
        return false;
    }
    is_date(&eight(value))
}

/// A value of eight bytes.
fn eight(value: &[u8]) -> [u8; 8]
    requires { length value.now ≡ 8 }
    ensures { result ≡ value.now }
{
    [
        value[0], value[1], value[2], value[3], value[4], value[5], value[6], value[7],
    ]
}

/// Appends a day, as `15 January 2024`.
#[tactic(auto, unfolding(crate::specs::Meanings::day_words), using(crate::proofs::Written::three))]
fn put_day(out: &mut Text, day: u64, month: u64, year: u64)
    ensures { Takes (day_words year month day) out.old out.new }
{
    out.number(day);
    put_month(out, month);
    out.number(year);
}

/// Appends the name of a month between spaces.
fn put_month(out: &mut Text, month: u64)
    ensures { Takes (codes " " ++ month_name month ++ codes " ") out.old out.new }
{
    out.between(" ", month_name(month).as_bytes(), " ");
}

/// The day of a date.
fn day_of(date: &[u8]) -> u64
    requires { length date.now ≡ 8 }
    ensures { result ≡ day_of date.now }
{
    10 * digit_at(date, 6) + digit_at(date, 7)
}

/// The month of a date.
fn month_of(date: &[u8]) -> u64
    requires { length date.now ≡ 8 }
    ensures { result ≡ month_of date.now }
{
    10 * digit_at(date, 4) + digit_at(date, 5)
}

/// The year of a date.
fn year_of(date: &[u8]) -> u64
    requires { length date.now ≡ 8 }
    ensures { result ≡ year_of date.now }
{
    let century = 1000 * digit_at(date, 0) + 100 * digit_at(date, 1);
    century + 10 * digit_at(date, 2) + digit_at(date, 3)
}

/// The number that the digit at a place of a date names.
fn digit_at(date: &[u8], place: usize) -> u64
    requires { place < length date.now }
    ensures value { result ≡ digit date.now place }
    ensures small { result < 256 }
{
    u64::from(date[place]).saturating_sub(48)
}

/// The name of a month by its number, from 1; no words for any other number.
#[tactic(auto, unfolding(crate::specs::Meanings::month_name))]
fn month_name(month: u64) -> &'static str
    ensures { result.now ≡ month_name month }
{
    match month {
        1 => "January",
        2 => "February",
        3 => "March",
        4 => "April",
        5 => "May",
        6 => "June",
        7 => "July",
        8 => "August",
        9 => "September",
        10 => "October",
        11 => "November",
        12 => "December",
        _ => "",
    }
}
