//! What is known of a set of characters before any is held against it.

ghost use Rattle.std.specs.Prelude.{◌≡◌};
ghost use Rattle.char_traits.specs.Known.{printable_from, all_from, without_flow};

/// Which wide characters, those that are no ASCII, are known to be in a set.
#[derive(Clone, Copy)]
pub enum Wide {
    /// None is: the set is asked for each.
    Asked,
    /// All but U+0080 to U+00BF and U+F000 to U+FFFF, among which some are not printable or mark the byte order.
    Printable,
    /// All are.
    All,
}

/// Characters that are known to be in a set without asking for each: a range of ASCII, its ends with it, and wide
/// characters. A scan looks at many bytes at once and asks the set only for the others. `low` is at most 0x80 and `high`
/// less; with `low` above `high` no character of ASCII is known.
#[derive(Clone, Copy)]
pub struct Known {
    pub low: u8,
    pub high: u8,
    pub wide: Wide,
    /// Whether the flow characters are left out.
    pub but_flow: bool,
}

impl Known {
    /// The printable characters from one of ASCII on, but for the wide ones that are asked.
    pub fn printable_from(low: u8) -> Known
        ensures { result ≡ printable_from low }
    {
        Known {
            low,
            high: b'~',
            wide: Wide::Printable,
            but_flow: false,
        }
    }

    /// All characters from one of ASCII on.
    pub fn all_from(low: u8) -> Known
        ensures { result ≡ all_from low }
    {
        Known {
            low,
            high: 0x7F,
            wide: Wide::All,
            but_flow: false,
        }
    }

    /// Without the flow characters.
    pub fn but_flow(self) -> Known
        ensures { result ≡ without_flow self }
    {
        Known {
            but_flow: true,
            ..self
        }
    }
}
