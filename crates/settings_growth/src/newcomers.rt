//! Logs under settings that give new providers books of their own.

ghost use Rattle.std.specs.Prelude.{◌≡◌, ℕ, ◌≤◌, [], ◌++◌, List, Some};
ghost use Rattle.std.specs.List.{AllByRecursion};
ghost use Rattle.bin_routes.specs.Row.{Row};
ghost use Rattle.bin_routes.specs.Table.{among, routes_of};
ghost use Rattle.claim_model.specs.Bytes.{bytes_with};
ghost use Rattle.claim_model.specs.Context.{Context};
ghost use Rattle.claim_model.specs.Laws.{Laws};
ghost use Rattle.claim_model.specs.Settings.{WorldSettings, Accepts, opening};
ghost use Rattle.claim_model.specs.Node.{Node};
ghost use Rattle.claim_model.specs.World.{Event};
ghost use Rattle.claim_model.specs.Nodes.{AnyNode, node_at};
ghost use Rattle.claim_model.specs.Logs.{Logged, NodeLog, replay, Makes};
ghost use Rattle.claim_model.specs.Interleavings.{IsInterleaving};
ghost use Rattle.settings_growth.specs.Growth.{Grows, GrowsFor, NodesGrow, WidensFor, RoutesLast, HasOwnCalls, RejectionsStay};
ghost use Rattle.settings_growth.specs.GoingOver.{Added, GoesOver};
ghost use Rattle.settings_growth.specs.Rows.{AreForNewcomers};

use bin_routes::{number_laws, range_laws};

/// In a legal run each request that a node took is of a pharmacy of the settings.
#[tactic(auto, using(crate::proofs::Own::all_own))]
pub fn requests_are_of_pharmacies()
    ensures { (ctx : Context) (s : WorldSettings) (logs : List NodeLog) (events : List Event) → Laws ctx → Accepts ctx s
        → IsInterleaving ctx s logs events → AllByRecursion (λ log. HasOwnCalls ctx s log.calls) logs }
{}

/// A log goes over where each request that it took has the route that it had, and what a switch rejected for want of a route
/// has none now: both can be seen from the log and the two tables, call by call.
#[tactic(auto, using(crate::proofs::Replayed::goes_over_lasting))]
pub fn logs_with_their_routes_go_over()
    ensures { (ctx wider : Context) (s t : WorldSettings) (node : Node) (before : AnyNode) (log : List Logged)
        → wider ≡ record ctx { route = wider.route; switches = wider.switches } → ctx.switches ≤ wider.switches
        → NodesGrow s t → node_at (opening s) node ≡ Some before → RoutesLast ctx wider log
        → RejectionsStay ctx wider node log → Makes ctx before log → GoesOver ctx wider t node before log }
{}

/// Where what the old pharmacies had as a route is as it was, a log goes over whose requests are theirs, however other
/// providers are routed now. At a switch this asks that what it rejected for want of a route has none now.
#[tactic(auto, using(crate::proofs::Replayed::goes_over_for))]
pub fn logs_of_pharmacies_go_over()
    ensures { (ctx wider : Context) (s t : WorldSettings) (node : Node) (before : AnyNode) (log : List Logged)
        → GrowsFor ctx wider s t → node_at (opening s) node ≡ Some before → HasOwnCalls ctx s log
        → RejectionsStay ctx wider node log → Makes ctx before log → GoesOver ctx wider t node before log }
{}

/// A node goes over at a moment of its own. So far it took requests of the old pharmacies alone: the new ones open once
/// every switch and every payer has gone over.
#[tactic(auto, using(crate::proofs::Replayed::goes_on_for))]
pub fn logs_of_pharmacies_go_on()
    ensures { (ctx wider : Context) (s t : WorldSettings) (node : Node) (before after : AnyNode) (log more : List Logged)
        → GrowsFor ctx wider s t → node_at (opening s) node ≡ Some before → node_at (opening t) node ≡ Some after
        → HasOwnCalls ctx s log → RejectionsStay ctx wider node log → Makes ctx before log
        → Makes wider (replay wider after log) more → Makes wider after (log ++ more) }
{}

/// A legal run under the old settings is one under the new ones, of the same logs and of empty ones for the new nodes.
pub fn runs_of_pharmacies_go_over()
    ensures { (ctx wider : Context) (s t : WorldSettings) (logs more : List NodeLog) (events : List Event) → Laws ctx
        → Accepts ctx s → GrowsFor ctx wider s t
        → AllByRecursion (λ log. RejectionsStay ctx wider log.node log.calls) logs → Added t logs more
        → IsInterleaving ctx s logs events → IsInterleaving wider t (logs ++ more) events }
{}

/// Rows for providers that are no pharmacy yet may be added after the others, and switches too: the old pharmacies keep their
/// payers.
pub fn rows_for_newcomers_may_be_added()
    ensures { (s : WorldSettings) (rows more : List Row) (old new : ℕ) → AreForNewcomers s more → old ≤ new
        → WidensFor s (bytes_with (among old (routes_of rows))) (bytes_with (among new (routes_of (rows ++ more)))) }
{
    range_laws();
    number_laws();
}

/// Settings that grow for all providers grow for the old pharmacies; and what has grown so twice has grown so.
#[tactic(auto, using(crate::proofs::Growing::for_all))]
pub fn growth_for_pharmacies()
    ensures all { (ctx wider : Context) (s t : WorldSettings) → Grows ctx wider s t → GrowsFor ctx wider s t }
    ensures twice { (ctx wider widest : Context) (s t u : WorldSettings)
        → GrowsFor ctx wider s t → GrowsFor wider widest t u → GrowsFor ctx widest s u }
{}
