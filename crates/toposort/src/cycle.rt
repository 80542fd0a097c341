//! A cycle, where each unlisted node has an edge from another.
ghost use Rattle.std.specs.Prelude.{◌≤◌, length, slice_range};
ghost use Rattle.events.specs.Limits.{max_events};
ghost use Rattle.toposort.specs.Answer.{Writes};
ghost use Rattle.toposort.specs.Cycle.{IsCycle};
ghost use Rattle.toposort.specs.Scratch.{Unlisted, AllListed, AllBlocked, Backward};

use crate::graph::Graph;
use crate::ready::PLACES;
use events::limits::MAX_EVENTS;

// A node that is not listed.
fn unlisted(listed: &[bool; PLACES], n: usize) -> usize
    requires small { n ≤ max_events }
    requires some { ¬ AllListed n listed.now }
    ensures { Unlisted n listed.now result }
{
    for node in 1..n + 1 {
        if !listed[node] {
            return node;
        }
    }
    unreachable!()
}

// Goes from an unlisted node back along an edge to its blocker, and on, until a node comes again. The two loops, over edges and
// over the nodes so far, are left with the place of that node as soon as it closes the cycle. What stands in `path` from the
// first number of the answer up to the second is then a cycle, backward.
fn walk_back<G: Graph>(
    graph: &G,
    listed: &[bool; PLACES],
    blockers: &[u16; PLACES],
    path: &mut [u16; MAX_EVENTS],
) -> (usize, usize)
    requires some { ¬ AllListed (G.size graph.now) listed.now }
    requires blocked { AllBlocked (G.size graph.now) (G.edge graph.now) listed.now blockers.now }
    ensures from { result.0 ≤ result.1 }
    ensures few { result.1 ≤ G.size graph.now }
    ensures cycle { IsCycle (G.size graph.now) (Backward (G.edge graph.now)) (slice_range path.new result.0 result.1) }
{
    let mut node = unlisted(listed, graph.size()) as u16;
    let mut count = 0;
    let from = 'walk: loop {
        for i in 0..count {
            if path[i] == node {
                break 'walk i;
            }
        }
        path[count] = node;
        count += 1;
        node = blockers[usize::from(node)];
    };
    (from, count)
}

// Writes a cycle into the first places, and says how many nodes it has.
pub(crate) fn write_cycle<G: Graph>(
    graph: &G,
    listed: &[bool; PLACES],
    blockers: &[u16; PLACES],
    listing: &mut [u16],
) -> usize
    requires some { ¬ AllListed (G.size graph.now) listed.now }
    requires blocked { AllBlocked (G.size graph.now) (G.edge graph.now) listed.now blockers.now }
    requires room { G.size graph.now ≤ length listing.old }
    ensures few { result ≤ G.size graph.now }
    ensures writes { Writes result (IsCycle (G.size graph.now) (G.edge graph.now)) listing.old listing.new }
{
    let mut path = [0; MAX_EVENTS];
    let (from, count) = walk_back(graph, listed, blockers, &mut path);
    let cycle = &mut path[from..count];
    cycle.reverse();
    listing[..cycle.len()].copy_from_slice(cycle);
    cycle.len()
}
