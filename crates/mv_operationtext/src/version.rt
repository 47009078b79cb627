//! The versions of the text. In the second one, each entry has the number of its call. `specs/EntryText.antt` says how
//! they differ.

ghost use Rattle.std.specs.Prelude.{◌≡◌};
ghost use Rattle.mv_operationtext.specs.Version.{number_of};

/// A version of the text, as laws and definitions name it.
#[derive(Clone, Copy, Debug, PartialEq, Eq)]
pub enum Version {
    One,
    Two,
}

impl Version {
    /// Returns the number of the version, as the first line of a text has it.
    pub fn number(self) -> u32
        ensures { result ≡ number_of self }
    {
        match self {
            Version::One => 1,
            Version::Two => 2,
        }
    }
}
