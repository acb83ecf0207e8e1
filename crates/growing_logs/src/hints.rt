//! For what in the routes a node is not served from its log.

ghost use Rattle.std.specs.Prelude.{◌≡◌};
ghost use Rattle.std.specs.Bool.{OnTrue};
ghost use Rattle.settings_digest.specs.Digests.{AreOf};
ghost use Rattle.growing_logs.specs.Hints.{IsHint, MadeUnder, hint_at, hint_for, hint_words};

use crate::becoming::Stays;
use log_growth::{Gone, OverFault, go_over};
use node_service::ServiceFault;
use settings_digest::Digests;
use std::alloc::Global;
use world_setup::Node;

/// For what in the routes a node does not make its log under the new settings, which it makes under the old ones.
#[derive(Clone, Copy, PartialEq, Eq)]
pub enum Hint {
    /// Nothing that is known.
    Nothing,
    /// A switch has rejected a request that has a route now.
    Routed,
    /// The same, or it has taken a request that has another payer now.
    RoutedOrMoved,
    /// A payer has taken a request that has another payer now.
    Moved,
}

impl Hint {
    /// How it is told, after why the log stays.
    #[tactic(auto, unfolding(crate::specs::Hints::hint_words))]
    pub(crate) fn words(self) -> &'static [u8]
        ensures { result.now ≡ hint_words self }
    {
        match self {
            Hint::Nothing => b"",
            Hint::Routed => b": a request that it rejected has a route now",
            Hint::RoutedOrMoved => {
                b": a request that it rejected has a route now, or one that it took has another payer"
            }
            Hint::Moved => b": a request that it took has another payer now",
        }
    }
}

/// For what a node would not be served from its log under the new settings. Where it makes its log under the old ones, which the text
/// spells, it is for the routes alone: a switch for a request that it rejected and that has a route now; and where new providers have
/// other payers (`moves`), a switch or a payer for a request of one of them, which it took before it went over.
pub(crate) fn hint_of(
    alloc: Global,
    old: &Digests,
    text: &[u8],
    moves: bool,
    bytes: &[u8],
    becomes: &Result<Gone, Stays>,
) -> Hint
    requires { AreOf text.now old.now }
    ensures { IsHint text.now bytes.now (hint_at moves becomes.now) result }
{
    let hint = hint_at(moves, becomes);
    if hint == Hint::Nothing || !is_made_under(alloc, old, text, bytes) {
        return Hint::Nothing;
    }
    hint
}

/// The hint at what becomes of a log, if its node makes it under the old settings.
fn hint_at(moves: bool, becomes: &Result<Gone, Stays>) -> Hint
    ensures { result ≡ hint_at moves becomes.now }
{
    match becomes {
        Err(Stays::Fault(OverFault::Refused(node, ServiceFault::NotMade(_)))) => {
            hint_for(*node, moves)
        }
        _ => Hint::Nothing,
    }
}

/// The hint for a node that does not make its log under the new settings.
fn hint_for(node: Node, moves: bool) -> Hint
    ensures { result ≡ hint_for node moves }
{
    match node {
        Node::Pharmacy(_) => Hint::Nothing,
        Node::Switch(_) => {
            if moves {
                Hint::RoutedOrMoved
            } else {
                Hint::Routed
            }
        }
        Node::Payer(_) => { if moves { Hint::Moved } else { Hint::Nothing } }
    }
}

/// Whether bytes are a log of these settings, under which its node makes it.
fn is_made_under(alloc: Global, digests: &Digests, text: &[u8], bytes: &[u8]) -> bool
    requires { AreOf text.now digests.now }
    ensures { OnTrue result (MadeUnder text.now bytes.now) }
{
    match go_over(alloc, digests, digests, text, bytes) {
        Ok(Gone::Already(_)) => true,
        _ => false,
    }
}
