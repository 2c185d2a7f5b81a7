//! The mail that travels to one worker.

ghost use Rattle.std.specs.Prelude.{◌≡◌, []};

use std::alloc::Global;
use std::marker::Model;
use vt_key::Mail;

/// The mail that was sent to one worker and that it hasn't fetched, in the order of sending.
#[derive(Drop)]
pub(crate) struct Inbox<P: Copy> {
    pub(crate) mail: Vec<Mail<P>>,
}

impl<P: Copy> Model for Inbox<P> {
    ghost use Rattle.std.specs.Prelude.{List};
    ghost use Rattle.vt_key.specs.declared.letter.Mail.{Mail};

    ghost Value = { List (Mail P) };

    ghost view = { λ i. i.mail.items };
}

impl<P: Copy> Inbox<P> {
    /// An inbox without mail.
    pub(crate) fn new(alloc: Global) -> Inbox<P>
        ensures { result ≡ [] }
    {
        Inbox {
            mail: Vec::new(alloc),
        }
    }
}
