//! Authorization numbers.

ghost use Rattle.std.specs.Prelude.{◌≡◌, ◌≤◌, ◌↔◌, length, replicate, IsSome, IfSome};
ghost use Rattle.claim_profile.specs.Authorization.{IsAuthorization, largest_payer, largest_serial, authorization_text, authorization_of, authorization_with, padded_number};
ghost use Rattle.claim_profile.specs.Ruling.{unread};

use overpunch::read_number;
use std::marker::Model;

/// The largest number of a payer in an authorization (own).
const LARGEST_PAYER: u16 = 9_999;
/// The largest serial of an authorization (own).
const LARGEST_SERIAL: u64 = 999_999_999_999;

/// An authorization number (503-F3): the payer that gave it, from 1 to 9,999, and its serial there,
/// from 1 to 999,999,999,999 (own).
#[derive(Clone, Copy, PartialEq, Eq, PartialOrd, Ord)]
pub struct Auth {
    payer: u16,
    serial: u64,
}

impl Model for Auth {
    ghost use Rattle.claim_profile.specs.Authorization.{Authorization, IsAuthorization};

    ghost Value = { Authorization };

    ghost view = { λ a. record { payer = a.payer; serial = a.serial } };

    ghost invariant = { λ a. IsAuthorization a.payer a.serial };

    ghost inverse = { λ v. record { payer = v.payer; serial = v.serial } };
}

impl Auth {
    /// What stands for a number that is not looked at.
    pub(crate) fn unread() -> Auth
        ensures { result ≡ unread }
    {
        Auth {
            payer: 1,
            serial: 1,
        }
    }

    /// The authorization of a payer with a serial, None outside the ranges.
    pub fn new(payer: u16, serial: u64) -> Option<Auth>
        ensures variant { IsSome result ↔ IsAuthorization payer serial }
        ensures given { IfSome result (λ a. (a.payer ≡ payer) × (a.serial ≡ serial)) }
    {
        if payer == 0 || payer > LARGEST_PAYER || serial == 0 || serial > LARGEST_SERIAL {
            return None;
        }
        Some(Auth { payer, serial })
    }

    /// The number of the payer.
    pub fn payer(self) -> u16
        ensures value { result ≡ self.payer }
        ensures range { (1 ≤ result) × (result ≤ largest_payer) }
    {
        self.payer
    }

    /// The serial at that payer.
    pub fn serial(self) -> u64
        ensures value { result ≡ self.serial }
        ensures range { (1 ≤ result) × (result ≤ largest_serial) }
    {
        self.serial
    }

    /// The sixteen digits of the number (own): four of the payer, then twelve of the serial.
    #[tactic(auto, using(crate::proofs::AuthorizationLemmas::digits_joined, crate::proofs::AuthorizationLemmas::twelve_left, crate::proofs::AuthorizationLemmas::zeros_behind))]
    pub fn digits(self) -> [u8; 16]
        ensures { result ≡ authorization_text self }
    {
        let mut digits = [b'0'; 16];
        put_digits(u64::from(self.payer), &mut digits[..4]);
        put_digits(self.serial, &mut digits[4..]);
        digits
    }

    /// The authorization that sixteen digits spell, None for any other bytes.
    #[tactic(auto, unfolding(crate::specs::Authorization::authorization_of))]
    pub fn read(text: &[u8]) -> Option<Auth>
        ensures { result ≡ authorization_of text.now }
    {
        if text.len() != 16 {
            return None;
        }
        let payer = read_number(&text[..4], 4).ok()?;
        let serial = read_number(&text[4..], 12).ok()?;
        authorization(payer, serial)
    }
}

/// The authorization of these parts, where there is one.
fn authorization(payer: u64, serial: u64) -> Option<Auth>
    ensures { result ≡ authorization_with payer serial }
{
    if payer == 0 || payer > u64::from(LARGEST_PAYER) || serial == 0 || serial > LARGEST_SERIAL {
        return None;
    }
    Some(Auth {
        payer: payer as u16,
        serial,
    })
}

/// Writes the last decimal digits of a number over zeros, as many as there is room.
#[tactic(auto, unfolding(crate::specs::Authorization::padded_number))]
fn put_digits(number: u64, digits: &mut [u8])
    requires { digits.old ≡ replicate (length digits.old) 48 }
    ensures { digits.new ≡ padded_number (length digits.old) number }
{
    let mut rest = number;
    let mut place = digits.len();
    while place > 0 {
        if rest == 0 {
            return;
        }
        place -= 1;
        digits[place] = b'0' + (rest % 10) as u8;
        rest /= 10;
    }
}
