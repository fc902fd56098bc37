//! The docs of an item.
ghost use Rattle.std.specs.Prelude.{◌≡◌, is_none};

use wit_values::Text;

/// The docs of an item; the default has no contents.
#[derive(Debug, Clone, PartialEq, Eq, Hash, Default, Drop)]
pub struct Docs {
    /// The text without its comment marks, if docs are written.
    pub contents: Option<Text>,
}

impl Docs {
    /// Whether no docs are written. Docs that are an empty text are written.
    pub fn is_empty(&self) -> bool
        ensures { result ≡ is_none self.now.contents }
    {
        self.contents.is_none()
    }
}
