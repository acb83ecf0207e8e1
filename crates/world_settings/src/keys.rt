//! The keys of a table.

ghost use Rattle.std.specs.Prelude.{◌≡◌, map};
ghost use Rattle.toml.specs.View.{table_view};
ghost use Rattle.world_settings.specs.Keys.{is_among, keys_among};

use toml::Table;

/// Whether each key of a table is one of these.
pub(crate) fn has_only(table: &Table, known: &[&str]) -> bool
    ensures { result ≡ keys_among (map (λ key. key.now) known.now) (table_view table.now) }
{
    for (key, _value) in table.iter() {
        if !is_among(known, key.as_str()) {
            return false;
        }
    }
    true
}

/// Whether a key is one of these.
fn is_among(known: &[&str], key: &str) -> bool
    ensures { result ≡ is_among (map (λ key. key.now) known.now) key.now }
{
    for name in known {
        if key == *name {
            return true;
        }
    }
    false
}
