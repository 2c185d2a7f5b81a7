//! The versions of the text of records.

ghost use Rattle.std.specs.Prelude.{◌≡◌};
ghost use Rattle.vt_text.specs.promise.Records.{first_line};

/// A version of the text of records.
#[derive(Debug, Clone, Copy, PartialEq, Eq)]
pub enum Version {
    /// A line `time lp kind value` for each record, and nothing else: it doesn't tell priorities.
    One,
    /// The line `twarp-records 2`, and a line `time priority lp kind value` for each record.
    Two,
}

impl Version {
    /// The line with which a text of this version begins, its newline too. [`Version::One`] has none: this is empty.
    pub fn first_line(self) -> &'static [u8]
        ensures { result.now ≡ first_line self }
    {
        match self {
            Version::One => b"",
            Version::Two => b"twarp-records 2\n",
        }
    }
}
