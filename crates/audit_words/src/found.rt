//! What was found of the words.

ghost use Rattle.std.specs.Prelude.{◌≡◌, option_map};
ghost use Rattle.std.specs.Option.{option_flatten};
ghost use Rattle.clap.specs.Words.{found_of, first_value};
ghost use Rattle.audit_words.specs.Found.{books_of, count_of, is_given, is_there, number_of};

use claim_reports::Books;
use clap::ArgMatches;
use input_text::read_decimal;

/// The most digits of a number.
const DIGITS: usize = 18;

/// Whether a word without a value is given.
pub(crate) fn is_given(matches: &ArgMatches<'_>, name: &str) -> bool
    ensures { result ≡ is_given (found_of matches.now) name.now }
{
    match matches.get_str(name) {
        Some(text) => text.as_bytes() == b"true".as_slice(),
        None => false,
    }
}

/// The number that is given under a word, if one is; none at all where what is given is no number of at most 18 digits.
pub(crate) fn number_of(matches: &ArgMatches<'_>, name: &str) -> Option<Option<u64>>
    ensures { result ≡ number_of (first_value (found_of matches.now) name.now) }
{
    match matches.get_str(name) {
        Some(text) => match read_decimal(text.as_bytes(), DIGITS) {
            Some(number) => Some(Some(number)),
            None => None,
        },
        None => Some(None),
    }
}

/// The books of a payer that are given under a word, if some are; none at all where what is given names none.
pub(crate) fn books_of(matches: &ArgMatches<'_>, name: &str) -> Option<Option<Books>>
    ensures { result ≡ books_of (first_value (found_of matches.now) name.now) }
{
    match matches.get_str(name) {
        Some(text) => match Books::read(text.as_bytes()) {
            Some(books) => Some(Some(books)),
            None => None,
        },
        None => Some(None),
    }
}

/// The books that are given under a word that has to be there.
pub(crate) fn wanted_books(matches: &ArgMatches<'_>, name: &str) -> Option<Books>
    ensures { result ≡ option_flatten (books_of (first_value (found_of matches.now) name.now)) }
{
    books_of(matches, name)?
}

/// Whether a word with a value is given.
pub(crate) fn is_there(matches: &ArgMatches<'_>, name: &str) -> bool
    ensures { result ≡ is_there (found_of matches.now) name.now }
{
    matches.get_str(name).is_some()
}

/// The number that is given under a word that has to be there.
pub(crate) fn wanted(matches: &ArgMatches<'_>, name: &str) -> Option<u64>
    ensures { result ≡ option_flatten (number_of (first_value (found_of matches.now) name.now)) }
{
    number_of(matches, name)?
}

/// How many values a word has.
pub(crate) fn count_of(matches: &ArgMatches<'_>, name: &str) -> usize
    ensures { result ≡ count_of (found_of matches.now) name.now }
{
    match matches.get_strs(name) {
        Some(values) => values.len(),
        None => 0,
    }
}
