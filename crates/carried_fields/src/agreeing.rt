//! Whether an advice rules what a book rules.

ghost use Rattle.std.specs.Prelude.{◌≡◌, Bool, length, map};
ghost use Rattle.std.specs.List.{list_all};
ghost use Rattle.claim_profile.specs.Reject.{code_text};
ghost use Rattle.carried_fields.specs.Agreeing.{same_money, same_texts, says_paid, says_reversed, says_rejected, agrees, agreed};

use claim_profile::{Amounts, Code, Rejects, Ruling};

/// Whether a ruling of an advice is that of a book. Authorization numbers are not looked at.
pub fn agrees(own: &Ruling, said: &Ruling) -> bool
    ensures { result ≡ agrees own.now said.now }
{
    match *own {
        Ruling::Paid {
            auth: _,
            prescription,
            amounts,
        } => says_paid(prescription, amounts, said),
        Ruling::Duplicate {
            auth: _,
            prescription,
            amounts,
        } => says_paid(prescription, amounts, said),
        Ruling::Reversed {
            auth: _,
            prescription,
        } => says_reversed(prescription, said),
        Ruling::Rejected { rejects } => says_rejected(&rejects, said),
    }
}

/// Whether all rulings of an advice are those of a book, place by place.
pub fn all_agree(own: &[Ruling], said: &[Ruling]) -> bool
    requires { length said.now ≡ length own.now }
    ensures { result ≡ list_all (λ (b : Bool). b) (agreed own.now said.now) }
{
    for place in 0..own.len() {
        if !agrees(&own[place], &said[place]) {
            return false;
        }
    }
    true
}

/// Whether a ruling says that this prescription is paid with these amounts, now or before.
fn says_paid(prescription: u64, amounts: Amounts, said: &Ruling) -> bool
    ensures { result ≡ says_paid prescription amounts said.now }
{
    match *said {
        Ruling::Paid {
            auth: _,
            prescription: number,
            amounts: money,
        } => prescription == number && same_money(amounts, money),
        Ruling::Duplicate {
            auth: _,
            prescription: number,
            amounts: money,
        } => prescription == number && same_money(amounts, money),
        Ruling::Reversed { .. } | Ruling::Rejected { .. } => false,
    }
}

/// Whether all four amounts are the same.
fn same_money(own: Amounts, said: Amounts) -> bool
    ensures { result ≡ same_money own said }
{
    own.cost() == said.cost()
        && own.fee() == said.fee()
        && own.copay() == said.copay()
        && own.total() == said.total()
}

/// Whether a ruling says that the payment of this prescription is reversed.
fn says_reversed(prescription: u64, said: &Ruling) -> bool
    ensures { result ≡ says_reversed prescription said.now }
{
    match *said {
        Ruling::Reversed {
            auth: _,
            prescription: number,
        } => prescription == number,
        Ruling::Paid { .. } | Ruling::Duplicate { .. } | Ruling::Rejected { .. } => false,
    }
}

/// Whether a ruling rejects with these codes, in this order.
fn says_rejected(rejects: &Rejects, said: &Ruling) -> bool
    ensures { result ≡ says_rejected rejects.now said.now }
{
    match *said {
        Ruling::Rejected { rejects: codes } => same_codes(rejects.as_slice(), codes.as_slice()),
        Ruling::Paid { .. } | Ruling::Duplicate { .. } | Ruling::Reversed { .. } => false,
    }
}

/// Whether these are the same codes in the same order.
fn same_codes(own: &[Code], said: &[Code]) -> bool
    ensures { result ≡ same_texts (map code_text own.now) (map code_text said.now) }
{
    match own {
        [] => said.is_empty(),
        [first, own @ ..] => match said {
            [] => false,
            [other, said @ ..] => first.text() == other.text() && same_codes(own, said),
        },
    }
}
