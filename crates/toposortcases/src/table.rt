// Graphs by their edges, each with the answer of a search and the places of the listing after it.
ghost use Rattle.std.specs.Prelude.{◌≡◌, min, ◌==◌, ◌&&◌, IsTrue};
ghost use Rattle.std.proofs.Common.{rules};
ghost use Rattle.std.specs.List.{list_any};
ghost use Rattle.events.specs.Limits.{max_events};

use events::limits::MAX_EVENTS;
use std::process::Abort;
use toposort::graph::Graph;
use toposort::search::{Found, ShortListing, toposort};

#[derive(Drop)]
struct Table {
    size: usize,
    edges: &'static [(usize, usize)],
}

// Whether the edge from a to b is among these.
fn leads(edges: &[(usize, usize)], a: usize, b: usize) -> bool
    ensures { result ≡ list_any (λ e. e.0 == a && e.1 == b) edges.now }
{
    edges.iter().any(|e| e.0 == a && e.1 == b)
}

impl Graph for Table {
    ghost size = { λ t. min t.size max_events };

    ghost edge = { λ t a b. IsTrue (list_any (λ e. e.0 == a && e.1 == b) t.edges.now) };

    ghost small = { λ t. Prim.search rules };

    fn size(&self) -> usize {
        self.size.min(MAX_EVENTS)
    }

    fn edge(&self, a: usize, b: usize) -> bool {
        leads(self.edges, a, b)
    }
}

#[derive(Drop)]
struct Row {
    graph: Table,
    answer: Result<Found, ShortListing>,
    after: [u16; 5],
}

const LISTING: Result<Found, ShortListing> = Ok(Found::Listing);

const fn given(
    size: usize,
    edges: &'static [(usize, usize)],
    answer: Result<Found, ShortListing>,
    after: [u16; 5],
) -> Row {
    Row {
        graph: Table { size, edges },
        answer,
        after,
    }
}

// Searches each graph with a listing of five places that hold 9.
fn search_each(rt: &impl Abort, rows: &[Row]) {
    for row in rows {
        let mut listing = [9; 5];
        assert!(rt; toposort(&row.graph, &mut listing) == row.answer);
        assert_eq!(rt; listing, row.after);
    }
}

#[test]
fn listings(rt: HostRuntime) {
    let rows = [
        given(0, &[], LISTING, [9, 9, 9, 9, 9]),
        given(0, &[(0, 0), (1, 1)], LISTING, [9, 9, 9, 9, 9]),
        given(1, &[], LISTING, [1, 9, 9, 9, 9]),
        given(3, &[(0, 1), (3, 4), (4, 3)], LISTING, [1, 2, 3, 9, 9]),
        given(4, &[(4, 1), (3, 2)], LISTING, [3, 2, 4, 1, 9]),
        given(5, &[(5, 3), (3, 2), (2, 4)], LISTING, [1, 5, 3, 2, 4]),
        given(5, &[(1, 2), (3, 5), (5, 4)], LISTING, [1, 2, 3, 5, 4]),
    ];
    search_each(&rt, &rows);
}

#[test]
fn cycles(rt: HostRuntime) {
    let one = Ok(Found::Cycle(1));
    let two = Ok(Found::Cycle(2));
    let three = Ok(Found::Cycle(3));
    let rows = [
        given(3, &[(3, 3)], one, [3, 9, 9, 9, 9]),
        given(5, &[(3, 4), (4, 3), (4, 5)], two, [4, 3, 9, 9, 9]),
        given(5, &[(2, 1), (3, 2), (2, 3)], two, [3, 2, 9, 9, 9]),
        given(4, &[(2, 3), (3, 4), (4, 2)], three, [3, 4, 2, 9, 9]),
    ];
    search_each(&rt, &rows);
}

#[test]
fn refusals(rt: HostRuntime) {
    let short = Err(ShortListing);
    let rows = [
        given(6, &[], short, [9, 9, 9, 9, 9]),
        given(6, &[(1, 1)], short, [9, 9, 9, 9, 9]),
    ];
    search_each(&rt, &rows);
}
