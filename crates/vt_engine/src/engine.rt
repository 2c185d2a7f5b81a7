//! The engine.

ghost use Rattle.std.specs.Prelude.{◌≡◌, IfOk, IfErr};
ghost use Rattle.vt_key.specs.declared.fault.Fault.TheVariants.{Memory};

use crate::kind::{KERNEL, Kind};
use std::alloc::Global;
use std::marker::Model;
use vt_kernel::Kernel;
use vt_key::Fault;
use vt_model::Model as EventModel;

/// A worker's kernel, of the kind `KIND`, as cells and stations take it.
///
/// The calls of `vt_cells` and of a station take an `&mut Engine` where one would write a trait `Engine` that each kind of kernel
/// implements: an `impl` that is generic in a model can't call what is generic in it. Contracts see a [`Kernel`], whichever kind
/// it is (`HeldWorker`). What an engine does and answers is what that kernel does and answers.
#[derive(Drop)]
pub struct Engine<M: EventModel, const KIND: u8> {
    // In a box, so that who owns an engine moves a pointer, and proves nothing of what is in a kernel.
    pub(crate) kind: Box<Kind<M>>,
}

impl<M: EventModel, const KIND: u8> Model for Engine<M, KIND> {
    ghost use Rattle.std.specs.Prelude.{◌≡◌};
    ghost use Rattle.vt_kernel.specs.inside.Held.{HeldWorker};

    ghost Value = { HeldWorker M.State M.Payload M.Kept };

    ghost use Rattle.vt_engine.specs.inside.Held.{held_of, number_of};

    ghost view = { λ e. held_of e.kind.value };

    ghost invariant = { λ e. number_of e.kind.value ≡ KIND };
}

impl<M: EventModel> Engine<M, KERNEL> {
    /// The engine that is this kernel.
    ///
    /// [`Fault::Memory`]: memory was refused.
    pub fn of(alloc: Global, kernel: Kernel<M>) -> Result<Engine<M, KERNEL>, Fault>
        ensures made { IfOk result (λ engine. engine ≡ kernel) }
        ensures refused { IfErr result (λ fault. fault ≡ Memory) }
    {
        let Ok(kind) = Box::new(alloc, Kind::Kernel(kernel)) else {
            return Err(Fault::Memory);
        };
        Ok(Engine { kind })
    }

    /// The kernel, to be read.
    pub fn kernel(&self) -> &Kernel<M>
        ensures { result.now ≡ self.now }
    {
        match &*self.kind {
            Kind::Kernel(kernel) => kernel,
            Kind::Share(_) => unreachable!(),
        }
    }
}
