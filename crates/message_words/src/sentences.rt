//! What is said of a message: each sentence stands here once, as a text for people and as members of an object of JSON.
//! Definitions cite these lines, so that a sentence has no proof of its own.

/// A sentence: the name of its finding, its members in JSON, each after a comma, and its words. In both texts `$0` is its
/// first fact, `$1` the second, and so on; none has more than ten.
pub(crate) type Sentence = (&'static str, &'static str, &'static str);

// ---- requests

/// Of a framed request: why.
pub(crate) const NOT_CARRIED: Sentence = (
    "not_carried",
    ",\"why\":$0",
    "framed, and not carried: $0",
);

/// A transaction: its number, fill, prescription, cardholder, quantity, product, cost and fee.
pub(crate) const BILLING: Sentence = (
    "order",
    ",\"transaction\":$0,\"order\":\"billing\",\"prescription\":$2,\"fill\":$1,\"cardholder\":$3,\"product\":$5,\"quantity\":$4,\"cost\":$6,\"fee\":$7",
    "transaction $0 reads as an order: billing of fill $1 of prescription $2 for $3: $4 of product $5, cost $6, fee $7; whether it is paid is for the plan and the book to say",
);

/// A transaction: its number, prescription and fill.
pub(crate) const REVERSAL: Sentence = (
    "order",
    ",\"transaction\":$0,\"order\":\"reversal\",\"prescription\":$1,\"fill\":$2",
    "transaction $0 reads as an order: reversal of fill $2 of prescription $1; whether a payment stands is for the book to say",
);

/// The same of one that names no fill.
pub(crate) const REVERSAL_OF_ONE: Sentence = (
    "order",
    ",\"transaction\":$0,\"order\":\"reversal\",\"prescription\":$1",
    "transaction $0 reads as an order: reversal of the one paid fill of prescription $1; whether a payment stands is for the book to say",
);

/// A transaction: its number, the code and its name, the field's number, key and name, what stands there, what is wanted,
/// and whether an answer tells it.
pub(crate) const REJECTED_NOTHING: Sentence = (
    "rejected",
    ",\"transaction\":$0,\"code\":$1,\"code_name\":$2,\"field\":$3,\"name\":$4,\"found\":\"nothing\",\"wanted\":$7$8",
    "transaction $0 is rejected: $1 $2; $3 $5: found nothing, wanted $7$8",
);

pub(crate) const REJECTED_ONE: Sentence = (
    "rejected",
    ",\"transaction\":$0,\"code\":$1,\"code_name\":$2,\"field\":$3,\"name\":$4,\"found\":\"one value\",\"value\":$6,\"wanted\":$7$8",
    "transaction $0 is rejected: $1 $2; $3 $5: found $6, wanted $7$8",
);

pub(crate) const REJECTED_SEVERAL: Sentence = (
    "rejected",
    ",\"transaction\":$0,\"code\":$1,\"code_name\":$2,\"field\":$3,\"name\":$4,\"found\":\"several values\",\"wanted\":$7$8",
    "transaction $0 is rejected: $1 $2; $3 $5: found several values, wanted $7$8",
);

// ---- answers

/// A ruling: its transaction, authorization, prescription, cost, fee, copay and total.
pub(crate) const PAID: Sentence = (
    "ruling",
    ",\"transaction\":$0,\"ruling\":\"paid\",\"authorization\":$1,\"prescription\":$2,\"cost\":$3,\"fee\":$4,\"copay\":$5,\"total\":$6",
    "transaction $0: paid $6 under $1: cost $3, fee $4, less copay $5; prescription $2",
);

pub(crate) const DUPLICATE: Sentence = (
    "ruling",
    ",\"transaction\":$0,\"ruling\":\"duplicate\",\"authorization\":$1,\"prescription\":$2,\"cost\":$3,\"fee\":$4,\"copay\":$5,\"total\":$6",
    "transaction $0: duplicate of what was paid before, $6 under $1: cost $3, fee $4, less copay $5; prescription $2",
);

/// A ruling: its transaction, authorization and prescription.
pub(crate) const REVERSED: Sentence = (
    "ruling",
    ",\"transaction\":$0,\"ruling\":\"reversed\",\"authorization\":$1,\"prescription\":$2",
    "transaction $0: reversed the payment under $1; prescription $2",
);

/// A ruling: its transaction and its codes.
pub(crate) const REJECTION: Sentence = (
    "ruling",
    ",\"transaction\":$0,\"ruling\":\"rejected\",\"codes\":$1",
    "transaction $0: rejected$1",
);

/// A fault by its name and in words.
pub(crate) const NO_ANSWER: Sentence = (
    "no_answer",
    ",\"fault\":$0",
    "framed, and reads as no answer: $1",
);

// ---- framing

/// A fault by its name and in words.
pub(crate) const NOT_FRAMED: Sentence = ("not_framed", ",\"fault\":$0", "not framed: $1");

/// The same, its place, the bytes around it and how many letters stand before the place.
pub(crate) const NOT_FRAMED_AT: Sentence = (
    "not_framed",
    ",\"fault\":$0,\"at\":$2,\"around\":$3,\"caret\":$4",
    "not framed: $1, at byte $2",
);

/// Two counts of transactions: that of the header, and how many there are.
pub(crate) const OTHER_COUNT: Sentence = (
    "not_framed",
    ",\"fault\":\"CountMismatch\",\"said\":$0,\"found\":$1",
    "not framed: the header says $0 transactions, and there are $1",
);

// ---- envelopes

/// A transaction: its number and its pharmacy.
pub(crate) const CARRIES_REQUEST: Sentence = (
    "envelope",
    ",\"carries\":\"request\",\"pharmacy\":$1,\"number\":$0",
    "an envelope with request $0 of pharmacy $1",
);

pub(crate) const CARRIES_ANSWER: Sentence = (
    "envelope",
    ",\"carries\":\"answer\",\"pharmacy\":$1,\"number\":$0",
    "an envelope with the answer to request $0 of pharmacy $1",
);

/// A fault by its name and in words.
pub(crate) const NO_ENVELOPE: Sentence = ("no_envelope", ",\"fault\":$0", "no envelope: $1");

/// Two lengths: that which is said, and that which is found.
pub(crate) const OTHER_LENGTH: Sentence = (
    "no_envelope",
    ",\"fault\":\"Length\",\"said\":$0,\"found\":$1",
    "no envelope: what it carries has another length than it says: $0 said, $1 found",
);

// ---- records

/// A payer, and how many rows.
pub(crate) const BOOK: Sentence = (
    "book",
    ",\"payer\":$0,\"rows\":$1",
    "reads as the book of payer $0: rows $1",
);

/// A pharmacy, and how many entries.
pub(crate) const JOURNAL: Sentence = (
    "journal",
    ",\"pharmacy\":$0,\"entries\":$1",
    "reads as the journal of pharmacy $0: entries $1",
);

/// A fault by its name and in words.
pub(crate) const NO_RECORD: Sentence = ("no_record", ",\"fault\":$0", "no record: $1");

pub(crate) const NO_RECORD_AT: Sentence = (
    "no_record",
    ",\"fault\":$0,\"at\":$2,\"around\":$3,\"caret\":$4",
    "no record: $1, at byte $2",
);
