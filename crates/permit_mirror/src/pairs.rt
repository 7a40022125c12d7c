//! Numbers under keys.

ghost use Rattle.std.specs.Prelude.{◌≡◌, ◌≤◌, ◌⊎◌, ◌==◌, ℕ, IfOk, OnOk, IsTrue, false};
ghost use Rattle.std.specs.List.{list_any};
ghost use Rattle.permit_base.specs.Limits.{most_records};
ghost use Rattle.permit_mirror.specs.Pairs.{has, Grows, RiseFrom};

use std::alloc::{AllocError, Global};
use std::collections::BTreeSet;

/// Pairs of a key and a number under it.
#[derive(Drop)]
pub(crate) struct Pairs {
    pub(crate) set: BTreeSet<(u32, u32)>,
}

impl Pairs {
    pub(crate) fn new(alloc: Global) -> Pairs
        ensures { (key number : ℕ) → has result key number ≡ false }
    {
        Pairs {
            set: BTreeSet::new(alloc),
        }
    }

    /// Adds the number under the key, unless it is there.
    pub(crate) fn add(&mut self, key: u32, number: u32) -> Result<(), AllocError>
        ensures grown { Grows self.old self.new }
        ensures added { OnOk result (IsTrue (has self.new key number)) }
        ensures only { (k n : ℕ) → IsTrue (has self.new k n) → IsTrue (has self.old k n) ⊎ ((k ≡ key) × (n ≡ number)) }
    {
        match self.set.insert((key, number)) {
            Ok(_) => Ok(()),
            Err(_) => Err(AllocError),
        }
    }

    /// The numbers under the key, in rising order.
    pub(crate) fn numbers(&self, alloc: Global, key: u32) -> Result<Vec<u32>, AllocError>
        requires { key ≤ most_records }
        ensures rising { IfOk result (λ v. RiseFrom 0 v.items) }
        ensures exact { IfOk result (λ v. (number : ℕ) → list_any (λ n. n == number) v.items ≡ has self.now key number) }
    {
        let mut numbers = Vec::new(alloc);
        for pair in self.set.range((key, 0)..(key + 1, 0)) {
            numbers.push(pair.1)?;
        }
        Ok(numbers)
    }
}
