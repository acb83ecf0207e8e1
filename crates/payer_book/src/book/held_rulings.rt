//! The rulings of a row.

ghost use Rattle.std.specs.Prelude.{◌≡◌, IfOk};

use claim_profile::Ruling;
use std::alloc::{AllocError, Global};
use std::marker::Model;

/// Some rulings. One alone, as most rows have it, stands in the row itself.
#[derive(Drop)]
pub(crate) struct HeldRulings {
    held: Held,
}

/// Where rulings stand.
#[derive(Drop)]
pub(crate) enum Held {
    /// One alone.
    One([Ruling; 1]),
    /// None, or several, in memory of their own.
    Several(Vec<Ruling>),
}

impl Model for HeldRulings {
    ghost use Rattle.std.specs.Prelude.{List};
    ghost use Rattle.claim_model.specs.Words.{Ruling};
    ghost use Rattle.payer_book.specs.Kept.{rulings_in};

    ghost Value = { List Ruling };

    ghost view = { λ r. rulings_in r.held };
}

impl HeldRulings {
    /// A copy of these rulings.
    pub(crate) fn copy_of(alloc: Global, rulings: &[Ruling]) -> Result<HeldRulings, AllocError>
        ensures { IfOk result (λ copy. copy ≡ rulings.now) }
    {
        if rulings.len() == 1 {
            return Ok(HeldRulings {
                held: Held::One([rulings[0]]),
            });
        }
        let several = Vec::from_slice(alloc, rulings)?;
        Ok(HeldRulings {
            held: Held::Several(several),
        })
    }

    /// The rulings in order.
    pub(crate) fn as_slice(&self) -> &[Ruling]
        ensures { result.now ≡ self.now }
    {
        match &self.held {
            Held::One(ruling) => ruling,
            Held::Several(rulings) => rulings.as_slice(),
        }
    }
}
