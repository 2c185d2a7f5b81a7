//! The pending events of a look, in any order.

use std::alloc::{AllocError, Global};
use vt_model::Sent;

/// The index of the event of least key, and 0 where there is none.
fn least_of<P: Copy>(events: &[Sent<P>]) -> usize {
    let mut least = 0;
    for at in 0..events.len() {
        if let (Some(event), Some(first)) = (events.get(at), events.get(least)) {
            if event.key < first.key {
                least = at;
            }
        }
    }
    least
}

/// Events that wait. A look is at runs with few of them, so they lie in no order.
#[derive(Drop)]
pub(crate) struct Pending<P: Copy> {
    events: Vec<Sent<P>>,
}

impl<P: Copy> Pending<P> {
    /// No event.
    pub(crate) fn new(alloc: Global) -> Self {
        Pending {
            events: Vec::new(alloc),
        }
    }

    /// Adds an event.
    pub(crate) fn put(&mut self, event: &Sent<P>) -> Result<(), AllocError> {
        self.events.push(*event)?;
        Ok(())
    }

    /// Takes the event of least key.
    pub(crate) fn take_least(&mut self) -> Option<Sent<P>> {
        let least = least_of(self.events.as_slice());
        if least < self.events.len() {
            Some(self.events.swap_remove(least))
        } else {
            None
        }
    }
}
