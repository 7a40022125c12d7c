//! What takes the items of a list one at a time.

ghost use Rattle.std.specs.Prelude.{Bool};

/// Takes items one at a time, and answers whether it wants more.
pub trait Taker<I> {
    /// What one call may do: of the taker, the item, the taker after it and the answer.
    ghost took: { Self → I → Self → Bool → Type 0 };

    /// Takes an item. False asks to stop.
    fn take(&mut self, item: I) -> bool
        ensures { took self.old item self.new result };
}
