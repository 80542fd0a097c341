//! A graph: anything that can be asked whether an edge leads from one number to another.
ghost use Rattle.std.specs.Prelude.{◌≡◌, ℕ, ◌≤◌, ◌↔◌, IsTrue};
ghost use Rattle.events.specs.Limits.{max_events};

/// The nodes are the numbers from 1 to the size. Edges from or to other numbers play no role.
pub trait Graph {
    ghost size: { Self → ℕ };

    ghost edge: { Self → ℕ → ℕ → Type 0 };

    fn size(&self) -> usize
        ensures { result ≡ size self.now };

    /// Whether an edge leads from a to b.
    fn edge(&self, a: usize, b: usize) -> bool
        ensures { IsTrue result ↔ edge self.now a b };

    ghost small: { (g : Self) → size g ≤ max_events };
}
