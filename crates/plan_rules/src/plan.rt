//! The plan of a processor.

ghost use Rattle.std.specs.Prelude.{◌≡◌, ◌≢◌, ◌≤◌, length, slice_get, IfErr, IfOk, IsSome, OnOk, OnErr, Ok, Err};
ghost use Rattle.std.specs.Option.{option_map};
ghost use Rattle.plan_rules.specs.Terms.{IsPlan, RefusedFor, opening, repriced, retermed, cleared, largest};
ghost use Rattle.plan_rules.specs.Prices.{price_of};
ghost use Rattle.plan_rules.specs.Pricing.{paid};

use crate::fault::PlanFault;
use crate::prices::{Price, price_of, remove_price, set_price};
use crate::pricing::{LARGEST, amounts_at};
use crate::product::product_of;
use claim_profile::{Amount, Amounts, Claim};
use std::alloc::{AllocError, Global};
use std::marker::Model;

/// A processor's plan: the most it pays as a dispensing fee, what a patient pays, and the price of each product that
/// it covers. Fee, copay and prices are at most 99,999,999, and there are at most 4,096 products.
#[derive(Drop)]
pub struct Plan {
    fee: u32,
    copay: u32,
    prices: Vec<Price>,
}

impl Model for Plan {
    ghost use Rattle.plan_rules.specs.Terms.{Terms, IsPlan};

    ghost Value = { Terms };

    ghost view = { λ p. record { fee = p.fee; copay = p.copay; prices = p.prices.items } };

    ghost invariant = { λ p. IsPlan (record { fee = p.fee; copay = p.copay; prices = p.prices.items }) };
}

impl Plan {
    /// A plan without products. It takes no memory until a price is set.
    pub fn new(alloc: Global, fee: Amount, copay: Amount) -> Result<Plan, PlanFault>
        ensures { result ≡ opening fee copay }
    {
        let (fee, copay) = (fee.cents(), copay.cents());
        if fee < 0 || copay < 0 {
            return Err(PlanFault::NegativeAmount);
        }
        Ok(Plan {
            fee: fee as u32,
            copay: copay as u32,
            prices: Vec::new(alloc),
        })
    }

    /// Sets the price of a product, in ten-thousandths of a dollar a unit.
    ///
    /// A price over 99,999,999 is PriceTooLarge; a product that does not have 1 to 19 bytes, holds a separator or ends
    /// in a space is BadProduct; a new product on a plan of 4,096 is PlanFull. A refusal changes nothing, and only a
    /// new product can be refused for want of memory.
    pub fn set(&mut self, product: &[u8], price: u32) -> Result<(), PlanFault>
        ensures ok { OnOk result (repriced self.old product.now price ≡ Ok self.new) }
        ensures err { OnErr result (self.new ≡ self.old) }
        ensures cause { IfErr result (λ fault. RefusedFor fault (repriced self.old product.now price)) }
        ensures known { IsSome (price_of self.old.prices product.now) → result ≢ Err PlanFault.OutOfMemory }
    {
        if price > LARGEST {
            return Err(PlanFault::PriceTooLarge);
        }
        let Some(text) = product_of(product) else {
            return Err(PlanFault::BadProduct);
        };
        set_price(&mut self.prices, text, price)
    }

    /// Takes a product off the plan. One that is not on it is no fault.
    pub fn clear(&mut self, product: &[u8])
        ensures { self.new ≡ cleared self.old product.now }
    {
        remove_price(&mut self.prices, product);
    }

    /// Sets the fee and the copay, in cents.
    ///
    /// One that is over 99,999,999 is PriceTooLarge, and then nothing changes. It takes no memory.
    pub fn set_terms(&mut self, fee: u32, copay: u32) -> Result<(), PlanFault>
        ensures ok { OnOk result (retermed self.old fee copay ≡ Ok self.new) }
        ensures err { OnErr result (self.new ≡ self.old) }
        ensures cause { IfErr result (λ fault. (fault ≡ PlanFault.PriceTooLarge) × (retermed self.old fee copay ≡ Err fault)) }
    {
        if fee > LARGEST || copay > LARGEST {
            return Err(PlanFault::PriceTooLarge);
        }
        self.fee = fee;
        self.copay = copay;
        Ok(())
    }

    /// What the plan pays for a claim; None where the claim's product is not on it.
    pub fn price(&self, claim: &Claim) -> Option<Amounts>
        ensures { result ≡ paid self.now claim.now }
    {
        match price_of(&self.prices, claim.product.as_slice()) {
            Some(price) => Some(amounts_at(self.fee, self.copay, price, claim)),
            None => None,
        }
    }

    /// The most that is paid as a dispensing fee, in cents.
    pub fn fee(&self) -> u32
        ensures value { result ≡ self.now.fee }
        ensures range { result ≤ largest }
    {
        self.fee
    }

    /// What a patient pays, in cents.
    pub fn copay(&self) -> u32
        ensures value { result ≡ self.now.copay }
        ensures range { result ≤ largest }
    {
        self.copay
    }

    /// How many products the plan has.
    pub fn products(&self) -> usize
        ensures count { result ≡ length self.now.prices }
        ensures kept { IsPlan self.now }
    {
        self.prices.len()
    }

    /// The product at a place in byte order, from 0, and its price; None where there are not this many.
    pub fn product(&self, place: usize) -> Option<(&[u8], u32)>
        ensures { option_map (λ p. (p.0.now, p.1)) result ≡ slice_get self.now.prices place }
    {
        match self.prices.get(place) {
            Some((product, price)) => Some((product.as_slice(), *price)),
            None => None,
        }
    }

    /// An equal plan.
    pub fn copy(&self) -> Result<Plan, AllocError>
        ensures { IfOk result (λ p. p ≡ self.now) }
    {
        Ok(Plan {
            fee: self.fee,
            copay: self.copay,
            prices: Vec::from_slice(*self.prices.allocator(), &self.prices)?,
        })
    }
}
