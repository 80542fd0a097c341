//! Every refusal carries a number, a place and the layer that was called.
ghost use Rattle.std.specs.Prelude.{◌≡◌, ℕ};
ghost use Rattle.events.specs.declared.refusal.Layer.{Layer as LayerOf};

use crate::plain::Plain;

/// The layer whose call was refused.
#[derive(Clone, Copy, PartialEq, Eq, Hash)]
pub enum Layer {
    Record,
    Log,
    Checker,
}

impl Plain for Layer {
    ghost plain = { record { clones = λ x y same. same; never_fails = λ x. tt } };
}

/// Each layer has one enum of its refusals, which implements this. A case carries what its place is made of.
// An impl for each enum, since each has cases, numbers and places of its own; one for all would be a table of them, no
// plainer.
pub trait Refusal {
    // The number of the refusal, and its place: an event number, or a byte of a log; 0 where it names no place.
    ghost code: { Self → ℕ × ℕ };

    ghost layer: { LayerOf };

    /// The number of the refusal, and its place.
    fn code(&self) -> (u8, usize)
        ensures { result ≡ code self.now };

    fn layer(&self) -> Layer
        ensures { result ≡ layer };

    final fn number(&self) -> u8
        ensures { result ≡ (code self.now).0 }
    {
        self.code().0
    }

    /// An event number, or a byte of a log; 0 where the refusal names no place.
    final fn place(&self) -> usize
        ensures { result ≡ (code self.now).1 }
    {
        self.code().1
    }
}
