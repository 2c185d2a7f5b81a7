//! Pointers that may be null.

ghost use Rattle.std.specs.Prelude.{◌≡◌, ◌↔◌, None, Some, IsTrue};
ghost use Rattle.vt_nodes.specs.inside.Address.{IsSomewhere};

use std::marker::Model;
use std::ptr::{NonNull, null_mut};

/// A pointer that may be null: where a block lies, or nothing. A clause sees an `Option` of the address.
///
/// A link doesn't say what type lies there. The code that follows a link owns the block, and knows its type.
// It is no `Option` of a pointer, which has a tag of 8 bytes. With a type parameter it couldn't be copied out of what is borrowed, since it has an `impl Model`.
#[derive(Clone, Copy)]
pub struct Link {
    at: *mut u8,
}

impl Model for Link {
    ghost use Rattle.std.specs.Prelude.{Option};
    ghost use Rattle.std.specs.Coded.{coded_option};
    ghost use Rattle.std.proofs.Common.{ap};
    ghost use denote.RawPtr.{Ptr, Testable, coded_ptr};
    ghost use Rattle.vt_nodes.specs.inside.Address.{address_of, pointer_of, pointer_of-address};

    ghost Value = { Option Ptr };

    ghost coded = { coded_option coded_ptr };

    ghost view = { λ l. address_of l.at };

    ghost invariant = { λ l. Testable l.at };

    ghost inverse = { λ address. record { at = pointer_of address } };

    ghost inverse_ok = { λ l h. ap (λ p. record { at = p }) (pointer_of-address l.at) };
}

// It owns nothing, so it may go to another thread.
unsafe impl Send for Link {}

impl Link {
    /// Nothing.
    pub fn none() -> Link
        ensures { result ≡ None }
    {
        Link { at: null_mut() }
    }

    /// A link to what lies at `at`.
    pub(crate) fn to<N>(at: *mut N) -> Link
        requires { IsSomewhere at }
        ensures { result ≡ Some at }
    {
        let address = unsafe { NonNull::new_unchecked(at) };
        Link {
            at: address.cast().as_ptr(),
        }
    }

    /// Whether there is nothing.
    pub(crate) fn is_none(self) -> bool
        ensures { IsTrue result ↔ (self ≡ None) }
    {
        NonNull::new(self.at).is_none()
    }

    /// The address; None if the link is null.
    pub fn address<N>(self) -> Option<*mut N>
        ensures { result ≡ self }
    {
        let address = NonNull::new(self.at)?;
        Some(address.cast().as_ptr())
    }
}
