//! The lowest node that is ready, found without asking for an edge again and again.
ghost use Rattle.toposort.specs.Scratch.{BlockedFrom, AllBlockedFrom, IsBlocker, LowestReady};

use crate::graph::Graph;
use events::limits::MAX_EVENTS;

// A place for each node. No node has place 0.
pub(crate) const PLACES: usize = MAX_EVENTS + 1;

// The lowest unlisted node with an edge to `node`, or one more than the graph has nodes. None is below `from`.
fn blocker<G: Graph>(graph: &G, listed: &[bool; PLACES], node: usize, from: usize) -> usize
    requires { BlockedFrom (G.size graph.now) (G.edge graph.now) listed.now node from }
    ensures { IsBlocker (G.size graph.now) (G.edge graph.now) listed.now node result }
{
    let n = graph.size();
    for u in from..n + 1 {
        if !listed[u] && graph.edge(u, node) {
            return u;
        }
    }
    n + 1
}

// The lowest unlisted node that no unlisted node has an edge to. In `blockers` stands for each node from which number on
// unlisted nodes may have an edge to it. What was asked below is not asked again, so that all the turns of a graph of n nodes
// ask for 2n² edges at most.
pub(crate) fn lowest_ready<G: Graph>(
    graph: &G,
    listed: &[bool; PLACES],
    blockers: &mut [u16; PLACES],
) -> Option<usize>
    requires { AllBlockedFrom (G.size graph.now) (G.edge graph.now) listed.now blockers.old }
    ensures from { AllBlockedFrom (G.size graph.now) (G.edge graph.now) listed.now blockers.new }
    ensures lowest { LowestReady (G.size graph.now) (G.edge graph.now) listed.now blockers.new result }
{
    let n = graph.size();
    for node in 1..n + 1 {
        if !listed[node] {
            let by = blocker(graph, listed, node, usize::from(blockers[node]));
            blockers[node] = by as u16;
            if by > n {
                return Some(node);
            }
        }
    }
    None
}
