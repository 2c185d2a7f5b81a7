//! The values of a station's cells.

use vt_board::Board;
use vt_book::Book;
use vt_key::Mail;

/// The value of one cell: the mail that travels to one worker, the board, or the book.
#[derive(Drop)]
pub(crate) enum Slot<P> {
    /// The mail that was sent to one worker and that it has not fetched, in the order of sending.
    Inbox(Vec<Mail<P>>),
    /// The board on which global virtual time is agreed.
    Board(Board),
    /// The committed rows.
    Book(Book),
}
