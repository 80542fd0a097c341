//! The memory that a call of an open record is handed: the record's own, or memory that is another's.
ghost use Rattle.std.specs.Prelude.{◌<◌};
ghost use Rattle.events.specs.Limits.{max_events};

use events::limits::MAX_EVENTS;
use events::plain::Plain;

/// A part of the other memory with fewer places than a run may have events: so many places from this one on, or as many as there
/// are.
#[derive(Clone, Copy, PartialEq, Eq)]
pub struct ShortPart {
    pub(crate) from: usize,
    pub(crate) places: usize,
    ghost short: { places < max_events },
}

impl Plain for ShortPart {
    ghost plain = { record { clones = λ x y same. same; never_fails = λ x. tt } };
}

impl ShortPart {
    ghost use Rattle.std.specs.Prelude.{◌≡◌, ◌+◌, ◌-◌, min, is_some, IfSome, nat_lt};

    /// The part that begins there and has so many places, if these are too few for a record.
    pub fn new(from: usize, places: usize) -> Option<ShortPart>
        ensures short { is_some result ≡ nat_lt places max_events }
        ensures given { IfSome result (λ p. (p.from ≡ from) × (p.places ≡ places)) }
    {
        if places < MAX_EVENTS {
            Some(ShortPart { from, places })
        } else {
            None
        }
    }

    // Where the part begins and where it ends, in memory of this length.
    pub(crate) fn bounds(&self, length: usize) -> (usize, usize)
        ensures from { result.0 ≡ min self.now.from length }
        ensures to { result.1 ≡ result.0 + min self.now.places (length - result.0) }
    {
        let from = self.from.min(length);
        (from, from + self.places.min(length - from))
    }
}

/// The memory that a call is handed.
#[derive(Clone, Copy, PartialEq, Eq)]
pub enum Handed {
    /// So many places of the record's own memory, from the first on, or all of it where it has fewer.
    Own(usize),
    /// Memory that is another's. It is too short for a record, whatever it holds.
    Other(ShortPart),
}

impl Plain for Handed {
    ghost plain = { record { clones = λ x y same. same; never_fails = λ x. tt } };
}
