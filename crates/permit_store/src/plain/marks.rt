//! The places of rows by a text of their own.

ghost use Rattle.std.specs.Prelude.{◌≡◌, ◌==◌, ◌<◌, ℕ, nat_eq};
ghost use Rattle.std.specs.HashMap.{get, spare};
ghost use Rattle.permit_store.specs.Places.{mark_of as the_mark, led_after, led_before};

use std::collections::HashMap;
use std::hash::{FoldHasher, Hasher};

/// The places of rows by the marks of their texts. A mark is a hash of 64 bits. It leads to the first row that has it, whose
/// text has then to be compared, since two texts may have one mark. So no text is kept twice.
pub(crate) type Marks = HashMap<u64, usize>;

/// The mark of a text.
#[tactic(auto, unfolding(crate::specs::Places::mark_of))]
pub(crate) fn mark_of(text: &str) -> u64
    ensures { result ≡ the_mark text.now }
{
    let mut hasher = FoldHasher::default();
    hasher.write(text.as_bytes());
    hasher.finish()
}

/// Leads the mark to the place, unless it leads to one already.
pub(crate) fn lead(marks: &mut Marks, mark: u64, place: usize)
    requires room { 0 < spare marks.old }
    ensures { (m : ℕ) → get nat_eq marks.new m ≡ led_after (get nat_eq marks.old m) (mark == m) place }
{
    if !marks.contains_key(&mark) {
        let _led = marks.insert(mark, place).is_ok();
    }
}

/// Leads the mark to the place, unless it leads before it already.
pub(crate) fn lead_before(marks: &mut Marks, mark: u64, place: usize)
    requires room { 0 < spare marks.old }
    ensures { (m : ℕ) → get nat_eq marks.new m ≡ led_before (get nat_eq marks.old m) (mark == m) place }
{
    let lowest = match marks.get(&mark) {
        Some(before) => place.min(*before),
        None => place,
    };
    let _led = marks.insert(mark, lowest).is_ok();
}
