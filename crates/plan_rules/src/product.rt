//! What may stand for a product.

ghost use Rattle.std.specs.Prelude.{◌≡◌, if◌then◌else◌, Some, None};
ghost use Rattle.std.specs.List.{list_any};
ghost use Rattle.plan_rules.specs.Prices.{ends_in_space, is_product, is_separator};

use claim_profile::Text;

/// The product that these bytes are: 1 to 19 of them, no separator, no space at the end.
pub fn product_of(bytes: &[u8]) -> Option<Text<19>>
    ensures { result ≡ (if is_product bytes.now then Some bytes.now else None) }
{
    if bytes.is_empty() || has_separator(bytes) || ends_in_space(bytes) {
        return None;
    }
    Text::new(bytes)
}

fn has_separator(bytes: &[u8]) -> bool
    ensures { result ≡ list_any is_separator bytes.now }
{
    bytes.iter().any(|byte| (0x1C..=0x1E).contains(byte))
}

fn ends_in_space(bytes: &[u8]) -> bool
    ensures { result ≡ ends_in_space bytes.now }
{
    bytes.last() == Some(&b' ')
}
