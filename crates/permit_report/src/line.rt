//! A line of a register, in place.

ghost use Rattle.std.specs.Prelude.{◌≡◌, ◌+◌, ◌<◌, ◌≤◌, [], ◌∷◌, ◌++◌, length};
ghost use Rattle.permit_model.specs.Register.{pad_left, pad_right};

use crate::column::fill;
use arrayvec::ArrayString;
use std::marker::Model;

/// A line that is being made, with room for the widest one.
#[derive(Drop)]
pub struct Line {
    text: ArrayString<256>,
}

impl Model for Line {
    ghost use Rattle.std.specs.Prelude.{ℕ, List};

    ghost Value = { List ℕ };

    ghost view = { λ line. line.text.bytes };
}

impl Line {
    pub fn new() -> Line
        ensures { result ≡ [] }
    {
        Line {
            text: ArrayString::new(),
        }
    }

    /// Appends a column whose text is aligned right, and a space.
    pub fn right(&mut self, width: usize, text: &str)
        requires { length self.old + width + length text.now < 256 }
        ensures text { self.new ≡ self.old ++ (pad_left width text.now ++ 32 ∷ []) }
        ensures short { length self.new ≤ length self.old + width + length text.now + 1 }
    {
        fill(&mut self.text, ' ', width.saturating_sub(text.len()));
        self.text.push_str(text);
        self.text.push(' ');
    }

    /// Appends a column whose text is aligned left, and a space.
    pub fn left(&mut self, width: usize, text: &str)
        requires { length self.old + width + length text.now < 256 }
        ensures text { self.new ≡ self.old ++ (pad_right width text.now ++ 32 ∷ []) }
        ensures short { length self.new ≤ length self.old + width + length text.now + 1 }
    {
        self.text.push_str(text);
        fill(&mut self.text, ' ', width.saturating_sub(text.len()));
        self.text.push(' ');
    }

    /// Appends the last column, whose text is aligned right, and the line's end.
    pub fn last(&mut self, width: usize, text: &str)
        requires { length self.old + width + length text.now < 256 }
        ensures { self.new ≡ self.old ++ (pad_left width text.now ++ 10 ∷ []) }
    {
        fill(&mut self.text, ' ', width.saturating_sub(text.len()));
        self.text.push_str(text);
        self.text.push('\n');
    }

    pub fn as_bytes(&self) -> &[u8]
        ensures { result.now ≡ self.now }
    {
        self.text.as_str().as_bytes()
    }
}
