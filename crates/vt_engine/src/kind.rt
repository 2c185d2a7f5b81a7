//! The kinds of kernel.

use vt_kernel::Kernel;
use vt_model::Model as EventModel;
use vt_share::Share;

/// The kind of an engine that is a [`Kernel`].
pub const KERNEL: u8 = 0;

/// The kind of an engine that is a [`Share`].
pub const SHARE: u8 = 1;

/// A kernel of either kind.
#[derive(Drop)]
pub(crate) enum Kind<M: EventModel> {
    /// One with a queue for each process, which does each local step by itself.
    Kernel(Kernel<M>),
    /// One with a calendar of all its processes, which does many local steps in one call.
    Share(Share<M>),
}
