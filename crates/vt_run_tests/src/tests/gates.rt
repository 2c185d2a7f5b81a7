//! What a run tells its gate.

use crate::tests::listener::Listener;
use crate::tests::running::{goes_to_its_end, hops_long};
use crate::tests::told::holds;
use std::rt::HostRuntime;

#[test]
fn two_workers_execute_at_once(rt: HostRuntime) {
    let gate = Listener::new(true);
    goes_to_its_end(&rt, 2, &gate);
    holds(&rt, gate.given_up() == 0, "no worker gave up");
    let (first, others) = gate.calls();
    holds(
        &rt,
        first >= 3 && others >= 3,
        "each worker executes three events",
    );
}

#[test]
fn turns_begin_at_one_and_never_fall(rt: HostRuntime) {
    let gate = Listener::new(false);
    hops_long(&rt, &gate);
    let (first, last, falls) = gate.turns();
    holds(
        &rt,
        first == 1 && last > 1 && falls == 0,
        "turns rise from 1",
    );
    let (calls, _) = gate.calls();
    holds(&rt, calls == 202, "a call for each event");
}
