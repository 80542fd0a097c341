//! A set of pairs of event numbers. A caller may think of it as a test on two numbers: `has` in specs/Pairs.antt.
ghost use Rattle.std.specs.Prelude.{◌≡◌, ℕ, ◌==◌, ◌&&◌, ◌||◌, false, IsTrue};
ghost use Rattle.relation.specs.Pairs.{InRange, in_range, has_member, has};

use events::limits::MAX_EVENTS;

// The bits of a `u64`.
const BITS_PER_WORD: usize = 64;

const WORDS_PER_ROW: usize = (MAX_EVENTS - 1) / BITS_PER_WORD + 1;

// A set of event numbers, a bit for each.
type Row = [u64; WORDS_PER_ROW];

/// Pairs of event numbers, from 1 to `MAX_EVENTS`.
#[derive(Drop)]
pub struct Relation {
    // For each number b the row of the numbers a with the pair (a, b).
    rows: [Row; MAX_EVENTS],
}

// Whether n may be the number of an event.
fn in_range(n: usize) -> bool
    ensures { result ≡ in_range n }
{
    (1..=MAX_EVENTS).contains(&n)
}

// Whether the row has the number a.
fn has_member(row: &Row, a: usize) -> bool
    ensures { result ≡ has_member row.now a }
{
    in_range(a) && (row[(a - 1) / BITS_PER_WORD] >> ((a - 1) % BITS_PER_WORD)) & 1 == 1
}

// Adds the number a to the row.
fn add_member(row: &mut Row, a: usize)
    requires { InRange a }
    ensures { (x : ℕ) → has_member row.new x ≡ (has_member row.old x || x == a) }
{
    row[(a - 1) / BITS_PER_WORD] |= 1 << ((a - 1) % BITS_PER_WORD);
}

// Adds the numbers of another row.
fn add_members(row: &mut Row, other: &Row)
    ensures { (x : ℕ) → has_member row.new x ≡ (has_member row.old x || has_member other.now x) }
{
    for i in 0..WORDS_PER_ROW {
        row[i] |= other[i];
    }
}

impl Relation {
    /// No pair at all.
    pub fn empty() -> Relation
        ensures { (x y : ℕ) → has result x y ≡ false }
    {
        Relation {
            rows: [[0; WORDS_PER_ROW]; MAX_EVENTS],
        }
    }

    /// Whether the pair (a, b) is in the relation; no pair with a number out of range is.
    pub fn contains(&self, a: usize, b: usize) -> bool
        ensures reads { result ≡ has self.now a b }
        ensures within { (x y : ℕ) → IsTrue (has self.now x y) → InRange x × InRange y }
    {
        in_range(b) && has_member(&self.rows[b - 1], a)
    }

    /// Adds the pair (a, b), if both numbers are in range, and answers whether they are.
    pub fn insert(&mut self, a: usize, b: usize) -> bool
        ensures answers { result ≡ (in_range a && in_range b) }
        ensures adds { (x y : ℕ) →
            has self.new x y ≡ (has self.old x y || (result && (x == a && y == b))) }
    {
        if in_range(a) && in_range(b) {
            add_member(&mut self.rows[b - 1], a);
            true
        } else {
            false
        }
    }

    /// Adds the pair (x, b) for every x with the pair (x, p). Nothing changes if b or p is out of range.
    pub fn absorb(&mut self, b: usize, p: usize)
        ensures { (x y : ℕ) →
            has self.new x y ≡ (has self.old x y || (in_range b && (y == b && has self.old x p))) }
    {
        if in_range(b) && in_range(p) {
            // A copy, since b and p may be one number.
            let other = self.rows[p - 1];
            add_members(&mut self.rows[b - 1], &other);
        }
    }
}
