//! What a run tells what watches it.

use crate::tests::listener::Listener;
use crate::tests::running::goes_to_its_end;
use crate::tests::told::holds;
use std::rt::HostRuntime;

// A run of so many workers must have told this: it began once, to this end, and executed and kept what its records say.
fn told_all(listener: &Listener, workers: u32) -> bool {
    let (executed, undone, tick) = listener.progress();
    let (first, others) = listener.calls();
    listener.beginning() == (1, 10, u64::from(workers))
        && executed == first.saturating_add(others)
        && executed.saturating_sub(undone) == 6
        && tick == 10
}

/// Each event of the run leaves one record. Whatever was undone, what was executed and not undone is the run.
#[test]
fn what_is_kept_is_the_run(rt: HostRuntime) {
    for workers in 1..4u32 {
        let listener = Listener::new(false);
        goes_to_its_end(&rt, workers, &listener);
        holds(
            &rt,
            told_all(&listener, workers),
            "what was told of the run",
        );
    }
}
