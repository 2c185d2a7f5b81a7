//! Whether the machine starts the threads of a run.

ghost use Rattle.std.specs.Prelude.{◌≡◌, IfErr};
ghost use Rattle.vt_key.specs.declared.fault.Fault.TheVariants.{Memory};

use std::sync::{Mutex, Wait};
use std::thread;
use std::thread::Threads;
use vt_key::Fault;

/// Waits until the gate is open.
fn pass<R: Wait>(rt: &R, gate: &Mutex<u8>) {
    let _passed = gate.lock(rt);
}

/// Whether the machine starts so many threads at a time. They do nothing, and have ended when this returns.
fn starts<R: Threads + Wait + Sync>(rt: &R, count: u32) -> bool {
    let gate = Mutex::new(0);
    let shared = &gate;
    thread::scope(thread::scope_env(), rt, |scope| {
        // Each thread that has started waits for this.
        let _held = shared.lock(rt);
        for _ in 0..count {
            if scope.spawn(move || pass(rt, shared)).is_err() {
                return false;
            }
        }
        true
    })
}

/// Tests whether the machine starts so many threads at a time, so that a run is refused at once where it doesn't. The call that begins the
/// threads of a run doesn't say whether they were started.
///
/// [`Fault::Memory`]: it doesn't.
pub(crate) fn test_threads<R: Threads + Wait + Sync>(rt: &R, count: u32) -> Result<(), Fault>
    ensures refused { IfErr result (λ fault. fault ≡ Memory) }
{
    if starts(rt, count) {
        Ok(())
    } else {
        Err(Fault::Memory)
    }
}
