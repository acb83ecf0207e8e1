//! What stands below the rows: the payments that each pharmacy counts, and those of each book.

use crate::lettering::{put_dollars, put_txn};
use crate::measures::{LINE, MARGIN, on, width_of};
use crate::plan::Plan;
use claim_profile::{Auth, Ruling};
use input_text::put_decimal;
use payer_book::{Book, Row};
use pharmacy_journal::CountedPayment;
use schedule::put_node;
use std::alloc::{AllocError, Global};
use svg_text::{Anchor, Drawing, Face, Point};
use world_core::World;
use world_setup::Node;

/// The lines below the rows.
#[derive(Drop)]
pub(crate) struct Foot {
    alloc: Global,
    lines: Vec<FootLine>,
}

/// One of them; those of payments stand further right than those of nodes.
#[derive(Drop)]
struct FootLine {
    is_payment: bool,
    words: Vec<u8>,
}

impl Foot {
    /// The lines of a world.
    pub(crate) fn of(plan: &Plan<'_>, world: &World) -> Result<Foot, AllocError> {
        let mut foot = Foot {
            alloc: plan.alloc,
            lines: Vec::new(plan.alloc),
        };
        for column in 0..plan.lanes.len() {
            match plan.lanes.node(column) {
                Node::Pharmacy(number) => foot.add_pharmacy(world, number)?,
                Node::Switch(_) => {}
                Node::Payer(number) => foot.add_payer(world, number)?,
            }
        }
        Ok(foot)
    }

    /// How wide the lines are.
    pub(crate) fn width(&self) -> u64 {
        let mut width = 0;
        for line in &self.lines {
            width = on(width_of(line.words.len()), MARGIN * 2).max(width);
        }
        width
    }

    /// How high they are.
    pub(crate) fn height(&self) -> u64 {
        (self.lines.len() as u64)
            .saturating_add(2)
            .saturating_mul(LINE)
    }

    /// Writes the lines, the first of them below this line.
    pub(crate) fn write(&self, drawing: &mut Drawing, top: u64) -> Result<(), AllocError> {
        let mut y = on(top, LINE);
        for line in &self.lines {
            y = on(y, LINE);
            let (x, face) = if line.is_payment {
                (MARGIN * 2, Face::Plain)
            } else {
                (MARGIN, Face::Bold)
            };
            drawing.words(face, Anchor::Start, Point { x, y }, line.words.as_slice())?;
        }
        Ok(())
    }

    /// Adds the lines of a pharmacy.
    fn add_pharmacy(&mut self, world: &World, number: u16) -> Result<(), AllocError> {
        let payments = world.paid(number)?;
        self.add_head(Node::Pharmacy(number), b" counts ", payments.len())?;
        for payment in payments.as_slice() {
            self.add_counted(payment)?;
        }
        Ok(())
    }

    /// Adds the line of a payment that a pharmacy counts.
    fn add_counted(&mut self, payment: &CountedPayment) -> Result<(), AllocError> {
        let mut words = Vec::new(self.alloc);
        words.extend_from_slice(&payment.auth().digits())?;
        words.extend_from_slice(b" ")?;
        put_dollars(&mut words, payment.amounts().total())?;
        self.add(true, words)
    }

    /// Adds the lines of a payer.
    fn add_payer(&mut self, world: &World, number: u16) -> Result<(), AllocError> {
        match world.book_of(number)? {
            Some(reading) => self.add_book(number, reading.book()),
            None => Ok(()),
        }
    }

    /// Adds the lines of a book.
    fn add_book(&mut self, number: u16, book: &Book) -> Result<(), AllocError> {
        let mut count = 0usize;
        for row in book.rows() {
            for ruling in row.rulings() {
                if let Ruling::Paid { .. } = ruling {
                    count = count.saturating_add(1);
                }
            }
        }
        self.add_head(Node::Payer(number), b" paid ", count)?;
        for row in book.rows() {
            self.add_row(book, row)?;
        }
        Ok(())
    }

    /// Adds a line for each payment of a row.
    fn add_row(&mut self, book: &Book, row: &Row) -> Result<(), AllocError> {
        let rulings = row.rulings();
        for (place, ruling) in rulings.iter().enumerate() {
            if let Ruling::Paid { auth, amounts, .. } = *ruling {
                let mut words = Vec::new(self.alloc);
                words.extend_from_slice(&auth.digits())?;
                words.extend_from_slice(b" ")?;
                put_dollars(&mut words, amounts.total())?;
                words.extend_from_slice(b" for ")?;
                put_txn(&mut words, row.id())?;
                if rulings.len() > 1 {
                    words.extend_from_slice(b"/")?;
                    put_decimal(&mut words, place as u64 + 1)?;
                }
                put_standing(&mut words, book, auth)?;
                self.add(true, words)?;
            }
        }
        Ok(())
    }

    /// Adds the line of a node with this many payments.
    fn add_head(&mut self, node: Node, verb: &[u8], count: usize) -> Result<(), AllocError> {
        let mut words = Vec::new(self.alloc);
        put_node(&mut words, node)?;
        words.extend_from_slice(verb)?;
        put_decimal(&mut words, count as u64)?;
        if count == 1 {
            words.extend_from_slice(b" payment")?;
        } else {
            words.extend_from_slice(b" payments")?;
        }
        self.add(false, words)
    }

    /// Adds a line.
    fn add(&mut self, is_payment: bool, words: Vec<u8>) -> Result<(), AllocError> {
        Ok(self.lines.push(FootLine { is_payment, words })?)
    }
}

/// Appends whether the payment of an authorization stands.
fn put_standing(out: &mut Vec<u8>, book: &Book, auth: Auth) -> Result<(), AllocError> {
    match book.payment(auth).and_then(|payment| payment.reversed_by) {
        Some(id) => {
            out.extend_from_slice(b", reversed by ")?;
            put_txn(out, id)
        }
        None => out.extend_from_slice(b", standing"),
    }
}
