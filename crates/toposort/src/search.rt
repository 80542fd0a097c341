//! The search: a topological order of a graph, or a cycle.
ghost use Rattle.std.specs.Prelude.{◌↔◌, ◌≤◌, IsTrue, length, replicate, MatchResult};
ghost use Rattle.events.specs.Limits.{max_events};
ghost use Rattle.events.specs.Relations.{Acyclic};
ghost use Rattle.toposort.specs.Graph.{Between};
ghost use Rattle.toposort.specs.Answer.{Answers, Shows, Writes, WritesAnyCycle};
ghost use Rattle.toposort.specs.Cycle.{Tells, TwoOrMore};
ghost use Rattle.toposort.specs.Listing.{Ordered, EveryNode, OneListing, EdgesForward};

use crate::cycle::write_cycle;
use crate::graph::Graph;
use crate::ready::{PLACES, lowest_ready};
use events::limits::MAX_EVENTS;
use events::plain::Plain;

/// What was found of a graph, and written into the listing.
#[derive(Clone, Copy, PartialEq, Eq)]
pub enum Found {
    /// Each node once, so that each edge goes forward; at each turn the lowest node that is ready.
    Listing,
    /// So many different nodes, each with an edge to the next, and the last with one to the first.
    Cycle(usize),
}

impl Plain for Found {
    ghost plain = { record { clones = λ x y same. same; never_fails = λ x. tt } };
}

/// The listing has fewer places than the graph has nodes.
#[derive(Clone, Copy, PartialEq, Eq)]
pub struct ShortListing;

impl Plain for ShortListing {
    ghost plain = { record { clones = λ x y same. same; never_fails = λ x. tt } };
}

// The search, where the listing has room.
fn search<G: Graph>(graph: &G, listing: &mut [u16]) -> Found
    requires { G.size graph.now ≤ length listing.old }
    ensures { Shows (G.size graph.now) (G.edge graph.now) listing.old listing.new result }
{
    let n = graph.size();
    let mut order = [0; MAX_EVENTS];
    let mut listed = [false; PLACES];
    let mut blockers = [1; PLACES];
    for k in 0..n {
        match lowest_ready(graph, &listed, &mut blockers) {
            Some(node) => {
                order[k] = node as u16;
                listed[node] = true;
            }
            None => return Found::Cycle(write_cycle(graph, &listed, &blockers, listing)),
        }
    }
    listing[..n].copy_from_slice(&order[..n]);
    Found::Listing
}

/// Writes a topological order of the nodes into the first places of the listing, or a cycle where there is none. The other
/// places stay as they were, and all of them where the listing is too short. Which cycle it is, and where it begins, is the choice
/// of the search. Besides the answer, the contract has the theorems about listings and cycles, in clauses that do not look at the
/// answer.
pub fn toposort<G: Graph>(graph: &G, listing: &mut [u16]) -> Result<Found, ShortListing>
    ensures answers { Answers (G.size graph.now) (G.edge graph.now) listing.old listing.new result }
    ensures every { EveryNode (G.size graph.now) (G.edge graph.now) }
    ensures one { OneListing (G.size graph.now) (G.edge graph.now) }
    ensures forward { EdgesForward (G.size graph.now) (G.edge graph.now) }
    ensures tells { Tells (G.size graph.now) (G.edge graph.now) }
    ensures two { TwoOrMore (G.size graph.now) (G.edge graph.now) }
{
    if listing.len() < graph.size() {
        return Err(ShortListing);
    }
    Ok(search(graph, listing))
}

/// Different nodes, each with an edge to the next, and the last with one to the first: so many in the first places, with 0 in the
/// others. Which cycle it is, and where it begins, is the choice of the search.
#[derive(Drop)]
pub struct Cycle {
    pub nodes: [u16; MAX_EVENTS],
    pub length: usize,
}

/// The same search, for a caller that holds no listing: a topological order in the first places, with 0 in the others, or a cycle.
pub fn order_or_cycle<G: Graph>(graph: &G) -> Result<[u16; MAX_EVENTS], Cycle>
    ensures { MatchResult result
        (λ listing. Writes (G.size graph.now) (Ordered (G.size graph.now) (G.edge graph.now)) (replicate max_events 0) listing)
        (λ c. WritesAnyCycle c.length (G.size graph.now) (G.edge graph.now) (replicate max_events 0) c.nodes) }
{
    let mut listing = [0; MAX_EVENTS];
    match toposort(graph, &mut listing) {
        Ok(Found::Listing) => Ok(listing),
        Ok(Found::Cycle(length)) => Err(Cycle {
            nodes: listing,
            length,
        }),
        Err(ShortListing) => unreachable!(),
    }
}

/// Whether the graph has no cycle. Where all edges are between nodes this says that the edges are acyclic.
pub fn is_acyclic<G: Graph>(graph: &G) -> bool
    ensures { IsTrue result ↔ Acyclic (Between (G.size graph.now) (G.edge graph.now)) }
{
    match order_or_cycle(graph) {
        Ok(_) => true,
        Err(_) => false,
    }
}
