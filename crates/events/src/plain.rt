//! Values that are copied as they are.
ghost use Rattle.std.specs.Prelude.{◌≡◌};
ghost use Rattle.events.specs.Plain.{IsPlain};

/// Values of which a clone is the same value and wants no memory. Every public type of this library that has a `Clone` is one of these.
// An impl for each type, since each shows the law of its own `Clone`, whether that is derived or written by hand.
pub trait Plain: Copy {
    /// The same value.
    final fn same(&self) -> Self
    where
        Self: Sized,
        ensures { result ≡ self.now }
    {
        *self
    }

    ghost plain: { IsPlain Self.is_clone Self.is_infallible };
}
