//! Reject codes.

ghost use Rattle.std.specs.Prelude.{◌≡◌, ◌<◌, ◌≤◌, ◌↔◌, List, [], ◌∷◌, ◌++◌, length, IsSome, IfSome, SomeIff};
ghost use Rattle.std.specs.List.{list_all};
ghost use Rattle.claim_profile.specs.CodeTexts.{is_code_letter, has_code_length, is_code_text, other_code};
ghost use Rattle.claim_profile.specs.Reject.{first_five_held, code_text};

use std::marker::Model;

/// A reject code (511-FB): one of the twelve that the rules here give, or another, which a payer's own system has given. "M/I" of
/// the standard's wording is "missing or invalid".
#[derive(Clone, Copy, Debug, PartialEq, Eq, PartialOrd, Ord)]
pub enum Code {
    /// 01, M/I BIN number: no processor is routed.
    Bin,
    /// 07, M/I cardholder ID.
    Cardholder,
    /// 15, M/I date of service.
    DateOfService,
    /// 16, M/I prescription/service reference number.
    Prescription,
    /// 17, M/I fill number.
    FillNumber,
    /// 21, M/I product/service ID.
    Product,
    /// 23, M/I ingredient cost submitted.
    IngredientCost,
    /// E7, M/I quantity dispensed.
    Quantity,
    /// DC, M/I dispensing fee submitted.
    DispensingFee,
    /// 70, product/service not covered.
    NotCovered,
    /// 83, duplicate paid/captured claim.
    DuplicateClaim,
    /// 87, reversal not processed.
    ReversalNotProcessed,
    /// Another one, as 75 or 569.
    Other(OtherCode),
}

/// A reject code that no rule here gives: two or three digits and capital letters.
#[derive(Clone, Copy, Debug, PartialEq, Eq, PartialOrd, Ord)]
pub struct OtherCode {
    letters: [u8; 3],
    count: u8,
}

impl Model for OtherCode {
    ghost use Rattle.std.specs.Prelude.{◌≡◌, ◌-◌, ◌≤◌, ℕ, List, ◌++◌, length, take, drop};
    ghost use Rattle.claim_profile.specs.CodeTexts.{no_letters};
    ghost use Rattle.std.proofs.Common.{arith, ap, ◌∙◌, sym, take-append-drop, length-take-le};

    ghost Value = { List ℕ };

    ghost view = { λ c. take c.count c.letters };

    ghost invariant = { λ c. (c.count ≤ 3) × (length c.letters ≡ 3)
        × (drop c.count c.letters ≡ no_letters (take c.count c.letters)) };

    ghost inverse = { λ v. record { letters = v ++ no_letters v; count = length v } };

    ghost inverse_ok = { λ c h i. record {
      letters = (ap (λ (rest : List ℕ). take c.count c.letters ++ rest) (sym h.2) ∙ take-append-drop c.count c.letters) i;
      count = length-take-le c.count c.letters (omega (arith, h.0, h.1)) i;
    } };
}

impl OtherCode {
    /// The code that these bytes are, None where they are no code. Of none of the twelve it is asked.
    fn read(text: &[u8]) -> Option<OtherCode>
        ensures { result ≡ other_code text.now }
    {
        if !is_code_text(text) {
            return None;
        }
        match text {
            [first, second] => Some(OtherCode {
                letters: [*first, *second, 0],
                count: 2,
            }),
            [first, second, third] => Some(OtherCode {
                letters: [*first, *second, *third],
                count: 3,
            }),
            _ => None,
        }
    }

    /// Its two or three bytes.
    pub fn text(&self) -> &[u8]
        ensures { result.now ≡ self.now }
    {
        &self.letters[..usize::from(self.count)]
    }
}

/// At most five reject codes, in order.
#[derive(Clone, Copy, Debug, PartialEq, Eq)]
pub struct FewCodes {
    codes: [Code; 5],
    count: usize,
}

impl Model for FewCodes {
    ghost use Rattle.std.specs.Prelude.{◌≡◌, ◌-◌, ◌≤◌, List, ◌++◌, length, take, drop};
    ghost use Rattle.claim_profile.specs.declared.reject.Code.{Code};
    ghost use Rattle.claim_profile.specs.Reject.{padding};
    ghost use Rattle.std.proofs.Common.{arith, ap, ◌∙◌, sym, take-append-drop, length-take-le};

    ghost Value = { List Code };

    ghost view = { λ r. take r.count r.codes };

    ghost invariant = { λ r. (r.count ≤ 5) × (length r.codes ≡ 5)
        × (drop r.count r.codes ≡ padding (take r.count r.codes)) };

    ghost inverse = { λ v. record { codes = v ++ padding v; count = length v } };

    ghost inverse_ok = { λ r h i. record {
      codes = (ap (λ (rest : List Code). take r.count r.codes ++ rest) (sym h.2) ∙ take-append-drop r.count r.codes) i;
      count = length-take-le r.count r.codes (omega (arith, h.0, h.1)) i;
    } };
}

impl FewCodes {
    /// No code.
    pub fn new() -> FewCodes
        ensures { result ≡ [] }
    {
        FewCodes {
            codes: [Code::Bin; 5],
            count: 0,
        }
    }

    /// How many codes there are.
    pub fn len(&self) -> usize
        ensures len { result ≡ length self.now }
        ensures few { result ≤ 5 }
    {
        self.count
    }

    /// One code more.
    pub fn push(&mut self, code: Code)
        requires { length self.old < 5 }
        ensures { self.new ≡ self.old ++ code ∷ [] }
    {
        self.codes[self.count] = code;
        self.count += 1;
    }

    /// The codes.
    pub fn as_slice(&self) -> &[Code]
        ensures codes { result.now ≡ self.now }
        ensures few { length result.now ≤ 5 }
    {
        &self.codes[..self.count]
    }

    /// The codes, where there is one.
    pub fn some(self) -> Option<Rejects>
        ensures { SomeIff result (1 ≤ length self) self }
    {
        if self.len() == 0 {
            return None;
        }
        Some(Rejects { codes: self })
    }
}

/// One to five reject codes, in the order in which they are written.
#[derive(Clone, Copy, Debug, PartialEq, Eq)]
pub struct Rejects {
    codes: FewCodes,
}

impl Model for Rejects {
    ghost use Rattle.std.specs.Prelude.{◌≤◌, List, length};
    ghost use Rattle.claim_profile.specs.declared.reject.Code.{Code};

    ghost Value = { List Code };

    ghost view = { λ r. r.codes };

    ghost invariant = { λ r. 1 ≤ length r.codes };

    ghost inverse = { λ v. record { codes = v } };
}

impl Rejects {
    /// This code alone.
    pub fn one(code: Code) -> Rejects
        ensures { result ≡ code ∷ [] }
    {
        let mut few = FewCodes::new();
        few.push(code);
        Rejects { codes: few }
    }

    /// These codes, None where there is none or there are more than five.
    pub fn new(codes: &[Code]) -> Option<Rejects>
        ensures variant { IsSome result ↔ ((1 ≤ length codes.now) × (length codes.now ≤ 5)) }
        ensures given { IfSome result (λ r. r ≡ codes.now) }
    {
        if codes.len() > 5 {
            return None;
        }
        let mut few = FewCodes::new();
        for code in codes {
            few.push(*code);
        }
        few.some()
    }

    /// The codes.
    pub fn as_slice(&self) -> &[Code]
        ensures codes { result.now ≡ self.now }
        ensures some { 1 ≤ length result.now }
        ensures few { length result.now ≤ 5 }
    {
        self.codes.as_slice()
    }
}

/// The codes whose condition holds, in order, the first five; None where no condition holds.
pub fn first_five(conditions: &[(bool, Code)]) -> Option<Rejects>
    ensures { SomeIff result (1 ≤ length (first_five_held conditions.now)) (first_five_held conditions.now) }
{
    let mut few = FewCodes::new();
    for (holds, code) in conditions {
        if *holds && few.len() < 5 {
            few.push(*code);
        }
    }
    few.some()
}

/// Whether bytes are two or three digits and capital letters.
fn is_code_text(text: &[u8]) -> bool
    ensures { result ≡ is_code_text text.now }
{
    has_code_length(text) && are_code_letters(text)
}

fn has_code_length(text: &[u8]) -> bool
    ensures { result ≡ has_code_length text.now }
{
    text.len() == 2 || text.len() == 3
}

fn are_code_letters(text: &[u8]) -> bool
    ensures { result ≡ list_all is_code_letter text.now }
{
    text.iter().all(|byte| is_code_letter(*byte))
}

fn is_code_letter(byte: u8) -> bool
    ensures { result ≡ is_code_letter byte }
{
    byte.is_ascii_digit() || byte.is_ascii_uppercase()
}

impl Code {
    ghost use Rattle.claim_profile.specs.Ruling.{code_of, known_code};

    /// Its two or three bytes, as field 511-FB has them.
    pub fn text(&self) -> &[u8]
        ensures { result.now ≡ code_text self.now }
    {
        match self {
            Code::Bin => b"01",
            Code::Cardholder => b"07",
            Code::DateOfService => b"15",
            Code::Prescription => b"16",
            Code::FillNumber => b"17",
            Code::Product => b"21",
            Code::IngredientCost => b"23",
            Code::Quantity => b"E7",
            Code::DispensingFee => b"DC",
            Code::NotCovered => b"70",
            Code::DuplicateClaim => b"83",
            Code::ReversalNotProcessed => b"87",
            Code::Other(other) => other.text(),
        }
    }

    /// The code that these bytes are: one of the twelve, or another of two or three digits and capital letters; else None.
    pub fn read(text: &[u8]) -> Option<Code>
        ensures { result ≡ code_of text.now }
    {
        match Code::known(text) {
            Some(code) => Some(code),
            None => OtherCode::read(text).map(Code::Other),
        }
    }

    /// The one of the twelve that these bytes are.
    fn known(text: &[u8]) -> Option<Code>
        ensures { result ≡ known_code text.now }
    {
        match text {
            b"01" => Some(Code::Bin),
            b"07" => Some(Code::Cardholder),
            b"15" => Some(Code::DateOfService),
            b"16" => Some(Code::Prescription),
            b"17" => Some(Code::FillNumber),
            b"21" => Some(Code::Product),
            b"23" => Some(Code::IngredientCost),
            b"E7" => Some(Code::Quantity),
            b"DC" => Some(Code::DispensingFee),
            b"70" => Some(Code::NotCovered),
            b"83" => Some(Code::DuplicateClaim),
            b"87" => Some(Code::ReversalNotProcessed),
            _ => None,
        }
    }
}
