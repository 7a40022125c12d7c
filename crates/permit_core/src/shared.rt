//! A text whose copies share its letters.

ghost use Rattle.std.specs.Prelude.{◌≡◌, IfOk, IsTrue};
ghost use Rattle.permit_base.specs.Texts.{is_printable};

use permit_base::values::Text;
use std::alloc::{AllocError, Global};
use std::marker::Model;
use std::sync::Arc;

/// A text whose copies share its letters: a copy takes no memory. It is for what is copied often, as the description of a file
/// is by each listing.
#[derive(Drop)]
pub struct SharedText {
    text: Arc<Text>,
}

impl Model for SharedText {
    ghost use Rattle.std.specs.Prelude.{List, ℕ};
    ghost use Rattle.std.specs.Arc.{arc_value};

    ghost Value = { List ℕ };

    ghost view = { λ s. arc_value s.text };
}

impl SharedText {
    /// The text, to be shared. The error is that memory was refused.
    pub fn new(alloc: Global, text: Text) -> Result<SharedText, AllocError>
        ensures { IfOk result (λ shared. shared ≡ text) }
    {
        match Arc::new(alloc, text) {
            Ok(text) => Ok(SharedText { text }),
            Err(_) => Err(AllocError),
        }
    }

    /// The text's bytes, as they were given.
    pub fn as_str(&self) -> &str
        ensures same { result.now ≡ self.now }
        ensures within { IsTrue (is_printable self.now) }
    {
        self.text.as_str()
    }
}

/// An error is that the text has 9223372036854775807 copies.
impl Clone for SharedText {
    ghost is_clone = { λ a b. b ≡ a };

    fn clone(&self) -> Result<SharedText, AllocError> {
        Ok(SharedText {
            text: self.text.clone()?,
        })
    }
}
