//! An input that can tell how often its source was stepped.

ghost use Rattle.std.specs.Prelude.{◌≡◌, ℕ, Option};

/// A source is stepped once for each character that is drawn of it. How often tells a reader that
/// draws ahead of its need.
pub trait Stepped {
    // none if it has no source
    ghost stepped: { Self → Option ℕ };

    /// How often its source was stepped, or none if it has no source.
    fn steps(&self) -> Option<u64>
        ensures { result ≡ stepped self.now };
}
