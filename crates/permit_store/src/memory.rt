//! Tables in memory that follow those of another store.

ghost use Rattle.std.specs.Prelude.{◌≡◌, ℕ, IfOk};
ghost use Rattle.permit_model.specs.Tables.{Tables};
ghost use Rattle.permit_store.specs.Changes.{changed, Fits};
ghost use Rattle.permit_store.specs.declared.change.Change.{Change as TheChange};

use crate::rows::Change;
use crate::store::{Got, Store};
use permit_base::values::Day;

/// Tables in memory. What a change needs is asked for beforehand, so that the change itself can't fail.
pub trait Memory: Store {
    /// A change with the memory that it needs.
    type Ready: Drop;

    /// It is this change on the day, and there is room for it.
    ghost is_ready: { Self → Self.Ready → TheChange → ℕ → Type 0 };

    /// Asks for the memory that the change needs, and leaves the tables and the counts. It may refuse a change that doesn't
    /// fit; otherwise it fails only where memory is refused.
    fn prepare(&mut self, change: &Change<'_>, day: Day) -> Got<Self::Ready>
        ensures kept { (t : Tables) → (Self.view self.old).holds t → (Self.view self.new).holds t }
        ensures handed { (Self.view self.new).handed ≡ (Self.view self.old).handed }
        ensures failed { (Self.view self.new).failed ≡ (Self.view self.old).failed }
        ensures commits { (Self.view self.new).commits ≡ (Self.view self.old).commits }
        ensures ready { IfOk result (λ r. is_ready self.new r change.now day) };

    /// Makes the change, exactly and with its day, and leaves the counts.
    fn make(&mut self, ready: Self::Ready, change: &Change<'_>, day: Day)
        requires ready { is_ready self.old ready change.now day }
        ensures made { (t : Tables) → (Self.view self.old).holds t → Fits t change.now day → (Self.view self.new).holds (changed t change.now day) }
        ensures handed { (Self.view self.new).handed ≡ (Self.view self.old).handed }
        ensures failed { (Self.view self.new).failed ≡ (Self.view self.old).failed }
        ensures commits { (Self.view self.new).commits ≡ (Self.view self.old).commits };

    /// How many file rows were handed out.
    fn handed(&self) -> u64
        ensures { result ≡ (Self.view self.now).handed };

    /// Memory gives back what was written.
    ghost sure: { (s : Self) → (Self.view s).doubt ≡ 0 };

    /// The tables in memory have one desk.
    ghost one: { (s : Self) (t u : Tables) → (Self.view s).holds t → (Self.view s).holds u → t.desk ≡ u.desk };
}
