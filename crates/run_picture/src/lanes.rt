//! The columns of nodes: pharmacies left, switches in the middle, payers right.

use world_core::World;
use world_setup::Node;

/// How many nodes of each kind have a column.
#[derive(Clone, Copy, PartialEq, Eq)]
pub(crate) struct Lanes {
    pharmacies: usize,
    switches: usize,
    payers: usize,
}

/// A side of a lifeline.
#[derive(Clone, Copy, PartialEq, Eq)]
pub(crate) enum Side {
    Left,
    Right,
}

impl Lanes {
    /// The columns of a world's nodes.
    pub(crate) fn of_world(world: &World) -> Lanes {
        Lanes {
            pharmacies: world.pharmacies().len(),
            switches: world.switches().len(),
            payers: world.payers().len(),
        }
    }

    /// How many columns there are.
    pub(crate) fn len(self) -> usize {
        self.pharmacies
            .saturating_add(self.switches)
            .saturating_add(self.payers)
    }

    /// The column of a node, from 0; one that is not there for a node that is not there.
    pub(crate) fn of(self, node: Node) -> usize {
        match node {
            Node::Pharmacy(number) => within(0, number, self.pharmacies),
            Node::Switch(number) => within(self.pharmacies, number, self.switches),
            Node::Payer(number) => {
                let before = self.pharmacies.saturating_add(self.switches);
                within(before, number, self.payers)
            }
        }
    }

    /// The node of a column.
    pub(crate) fn node(self, column: usize) -> Node {
        if column < self.pharmacies {
            return Node::Pharmacy(number_of(column));
        }
        let column = column.saturating_sub(self.pharmacies);
        if column < self.switches {
            return Node::Switch(number_of(column));
        }
        Node::Payer(number_of(column.saturating_sub(self.switches)))
    }

    /// Which way an arrow leaves its sender.
    pub(crate) fn side(self, from: Node, to: Node) -> Side {
        if self.of(from) < self.of(to) {
            Side::Right
        } else {
            Side::Left
        }
    }
}

/// The column of the node of a number, of this many whose columns begin here.
fn within(before: usize, number: u16, count: usize) -> usize {
    let number = usize::from(number);
    if number == 0 || number > count {
        return usize::MAX;
    }
    before.saturating_add(number - 1)
}

/// The number of the node at a place of its kind. No kind has more than 65,535.
fn number_of(place: usize) -> u16 {
    u16::try_from(place.saturating_add(1)).unwrap_or(u16::MAX)
}
