//! What is sought in the bytes that go by.

/// The kind of a trap's record, between two spaces. Nothing else in a record reads so: the tick begins its line, the value ends it, and
/// priorities and processes are smaller.
pub(crate) const TRAP: &[u8] = b" 4294967295 ";

/// The refusal of a run whose turns were spent, behind the program's name.
pub(crate) const TURNS_SPENT: &[u8] = b": refused 6 turns spent\n";

/// A search for a text that comes in pieces. The text's first byte may be its last too, and stands nowhere else in it.
#[derive(Drop)]
pub(crate) struct Search {
    sought: &'static [u8],
    // How many bytes of the sought text have come.
    matched: usize,
}

impl Search {
    /// A search that has seen nothing.
    pub(crate) fn new(sought: &'static [u8]) -> Search {
        Search { sought, matched: 0 }
    }

    /// Whether a byte begins the sought text.
    fn begins(&self, byte: u8) -> bool {
        self.sought.first() == Some(&byte)
    }

    /// How often the sought text ends in this piece.
    pub(crate) fn count(&mut self, piece: &[u8]) -> u64 {
        let mut count: u64 = 0;
        for byte in piece {
            self.matched = if self.sought.get(self.matched) == Some(byte) {
                self.matched.saturating_add(1)
            } else {
                usize::from(self.begins(*byte))
            };
            if self.matched == self.sought.len() {
                count = count.saturating_add(1);
                // The last byte may begin another one.
                self.matched = usize::from(self.begins(*byte));
            }
        }
        count
    }
}
