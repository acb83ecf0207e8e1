//! Whether answers carry what advices say beside their rulings: the table `answers`.

ghost use Rattle.std.specs.Prelude.{◌≡◌, codes};
ghost use Rattle.toml.specs.Data.{get_member};
ghost use Rattle.toml.specs.View.{table_view};
ghost use Rattle.world_settings.specs.Profile.{answers_in, answers_table, is_wide, profile_of};

use crate::keys::has_only;
use crate::values::value_at;
use toml::Table;

/// Whether answers of these settings are wide: as the table `answers` says, and not where there is none.
pub(crate) fn answers_in(table: &Table) -> Option<bool>
    ensures { result ≡ answers_in (table_view table.now) }
{
    match value_at(table, "answers") {
        None => Some(false),
        Some(value) => match value.as_table() {
            Some(answers) => answers_table(answers),
            None => None,
        },
    }
}

/// What the table says, whose only key is `profile`.
fn answers_table(table: &Table) -> Option<bool>
    ensures { result ≡ answers_table (table_view table.now) }
{
    if !has_only(table, &["profile"]) {
        return None;
    }
    profile_of(table)
}

/// What the key says.
fn profile_of(table: &Table) -> Option<bool>
    ensures { result ≡ profile_of (get_member (codes "profile") (table_view table.now)) }
{
    match value_at(table, "profile") {
        None => None,
        Some(value) => match value.as_str() {
            Some(text) => is_wide(text.as_bytes()),
            None => None,
        },
    }
}

/// Whether answers are wide.
fn is_wide(text: &[u8]) -> Option<bool>
    ensures { result ≡ is_wide text.now }
{
    if text == b"narrow".as_slice() {
        return Some(false);
    }
    if text == b"wide".as_slice() {
        return Some(true);
    }
    None
}
