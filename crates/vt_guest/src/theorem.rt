//! Theorems on traps, of every program.

ghost use Rattle.std.specs.Prelude.{◌≡◌, ℕ, ◌+◌, ◌<◌, ◌≤◌, [], ◌∷◌, Err};
ghost use Rattle.vt_key.specs.promise.Times.{Time, at};
ghost use Rattle.vt_key.specs.promise.Lists.{Among};
ghost use Rattle.vt_model.specs.promise.Simulation.{simulation_of, words_at};
ghost use Rattle.vt_model.specs.promise.Sequential.{seq_records};
ghost use Rattle.vt_guest.specs.declared.trap.TheConstants.{TRAP};
ghost use Rattle.vt_guest.specs.declared.trap.Reason.{Reason};
ghost use Rattle.vt_guest.specs.declared.process.Words.{Words};
ghost use Rattle.vt_guest.specs.declared.process.Process.{Process};
ghost use Rattle.vt_guest.specs.declared.guest.Guest.{Guest};
ghost use Rattle.vt_guest.specs.promise.Traps.{trap_value};
ghost use Rattle.vt_guest.specs.promise.Handlers.{start_run, event_run, guest_start, guest_forward, guest_handlers, alarm};
ghost use Rattle.vt_guest.specs.inside.Showing.{IsTrapEvent, IsFailedStart};

use crate::guest::Guest;
use vt_model::Config;

/// A trap of a start or of an event is a result, of every program. An event whose handler traps leaves the state as it was, sends nothing, and makes one
/// record, which has the trap's reason and address. An event at a process whose start trapped makes the record of that trap, and does
/// nothing else. A start that traps leaves the first state, marked, and sends one event, to its own process at time (0, 1).
pub fn traps_are_results<const SIZE: usize>()
    ensures event { (g : Guest SIZE) (lps lp : ℕ) (now : Time) (w : Words) (s : Process SIZE) (words : ℕ → ℕ) (why : Reason) → s.failed ≡ 0
        → (event_run g lps lp now w s words).end ≡ Err why
        → IsTrapEvent s (trap_value why (event_run g lps lp now w s words).handling.machine.pc) (guest_forward g lps lp now w s words) }
    ensures failed { (g : Guest SIZE) (lps lp : ℕ) (now : Time) (w : Words) (s : Process SIZE) (words : ℕ → ℕ) → 0 < s.failed
        → IsTrapEvent s s.failed (guest_forward g lps lp now w s words) }
    ensures start { (g : Guest SIZE) (lps lp : ℕ) (words : ℕ → ℕ) (why : Reason) → (start_run g lps lp words).end ≡ Err why
        → IsFailedStart g lp (trap_value why (start_run g lps lp words).handling.machine.pc) (guest_start g lps lp words) }
    ensures marked { (why : Reason) (address : ℕ) → 0 < trap_value why address }
{}

/// A trap in a start shows in every run: the process makes the trap's record at time (0, 1), which is below every end.
pub fn failed_starts_show<const SIZE: usize>(guest: &Guest<SIZE>, config: Config)
    ensures shows { (lp : ℕ) (why : Reason) (t : Time) → lp < config.lps → at 0 1 < t
        → (start_run guest.now config.lps lp (words_at config.seed lp 0)).end ≡ Err why
        → Among (record { time = 0; priority = 1; lp = lp; kind = TRAP; value = trap_value why (start_run guest.now config.lps lp (words_at config.seed lp 0)).handling.machine.pc })
        (seq_records (simulation_of (guest_handlers guest.now) config) t) }
    ensures early { at 0 1 < at config.end 0 }
{}
