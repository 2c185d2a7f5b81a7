//! Texts of somebody else's as a terminal is shown them: no character of theirs controls it, and none fills it.

ghost use Rattle.std.specs.Prelude.{◌≡◌, ℕ, List, IfOk, IfSome, length, string_bytes};
ghost use Rattle.std.specs.Str.{encode_utf8_all};
ghost use Rattle.vt_options.specs.inside.Shown.{IsShown, IsShownSentence, IsShownWord, IsWrittenAs};

use std::alloc::{AllocError, Global};

/// In how many columns a word is shown at most, a character as one, and without the two dots that stand for its rest.
pub const WORD_COLUMNS: usize = 40;

/// In how many columns a sentence that quotes words is shown at most, without the two dots.
pub const SENTENCE_COLUMNS: usize = 100;

/// What is written of a character, and in how many columns.
fn written(alloc: Global, spared: char, c: char) -> Result<(String, usize), AllocError>
    ensures { IfOk result (λ made. (xs : List ℕ) × IsWrittenAs spared c xs × (length xs ≡ made.1) × (string_bytes made.0 ≡ encode_utf8_all xs)) }
{
    let mut text = String::new(alloc);
    if c == spared {
        text.push(c)?;
        return Ok((text, 1));
    }
    let mut rest = c.escape_debug();
    let columns = rest.len();
    'escape: while let Some(letter) = rest.next() {
        text.push(letter)?;
    }
    Ok((text, columns))
}

/// A text in at most so many columns, with this character spared. An error means that memory was refused.
fn shown_in(alloc: Global, spared: char, columns: usize, whole: &str) -> Result<String, AllocError>
    ensures { IfOk result (λ text. IsShown spared columns whole.now (string_bytes text)) }
{
    let mut text = String::new(alloc);
    let mut room = columns;
    for c in whole.chars() {
        let (letters, wide) = written(alloc, spared, c)?;
        if room < wide {
            text.push_str("..")?;
            return Ok(text);
        }
        text.push_str(letters.as_str())?;
        room -= wide;
    }
    Ok(text)
}

/// A word as a terminal is shown it: its characters as `char::escape_debug` writes them, as many as have room in [`WORD_COLUMNS`], and
/// two dots in the place of others. None: memory was refused.
pub fn shown_word(alloc: Global, word: &str) -> Option<String>
    ensures { IfSome result (λ text. IsShownWord word.now (string_bytes text)) }
{
    shown_in(alloc, ' ', WORD_COLUMNS, word).ok()
}

/// A sentence that quotes words as a terminal is shown it: as [`shown_word`] shows a word, but with its single quotes as they are, and in
/// [`SENTENCE_COLUMNS`]. None: memory was refused.
pub fn shown_sentence(alloc: Global, sentence: &str) -> Option<String>
    ensures { IfSome result (λ text. IsShownSentence sentence.now (string_bytes text)) }
{
    shown_in(alloc, '\'', SENTENCE_COLUMNS, sentence).ok()
}
