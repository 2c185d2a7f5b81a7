//! Worked runs of the hop model, small enough to be followed by hand: what the definitions give for them is computed by
//! the checker, on the very simulation that the model's handlers are proved against.
//!
//! They show that the definitions say what they should: each replay is a list of steps that goes wrong if one sentence of
//! the steps is changed.
#![tactic(auto)]

mod hop_runs;
mod resending;

ghost use Rattle.vt_replays.specs.inside.Replays.{Replays, replayed, two_hops_run, straggler, whole_run_shown, anti_message_first, new_event_first, unequal_counts, unequal_counts_shown, travelling_least, travelling_least_shown, fetched_least, fetched_least_shown, anti_message_last, row_at_floor, row_at_floor_shown, second_round_closes, one_round, one_round_shown, alone, until_one, no_events, no_events_shown, undo_without_cause, undo_without_cause_shown, undo_without_cause_of_its_own, undo_without_cause_of_its_own_shown, one_commits, one_commits_shown, after_the_close, one_rise_on_two, straggler_within_a_tick, straggler_within_a_tick_shown};
ghost use Rattle.vt_replays.specs.inside.Replays.{tick, HasRecords, ProcessEndsWith, two_hops_run_to_4, three_processes_run, six_records, three_records, four_records, three_processes_records, below_3, two_rises_run, risen_records, three_rises_run, three_rises_run_to_2, records_to_2, records_to_10};

pub use hop_runs::hop_histories;
pub use resending::waiting_anti_message_is_the_least;

/// The worked replays: each list of steps, from the opening world with serials from 0, is answered as listed, and the world
/// then shows the announced time, the floor, the least time and the records that are listed.
pub fn replays_as_worked()
    ensures straggler_at_equal_time { Replays replayed straggler whole_run_shown }
    ensures anti_message_before_its_event { Replays replayed anti_message_first whole_run_shown }
    ensures new_event_before_anti_message_and_old_event { Replays replayed new_event_first whole_run_shown }
    ensures unequal_counts { Replays replayed unequal_counts unequal_counts_shown }
    ensures travelling_letter_of_the_new_colour_is_the_least { Replays replayed travelling_least travelling_least_shown }
    ensures fetched_letter_is_the_least { Replays replayed fetched_least fetched_least_shown }
    ensures anti_message_of_an_executed_event { Replays replayed anti_message_last whole_run_shown }
    ensures row_at_the_floor { Replays replayed row_at_floor row_at_floor_shown }
    ensures second_round_closes { Replays replayed second_round_closes whole_run_shown }
    ensures refused_in_a_round { Replays replayed one_round one_round_shown }
    ensures refused_to_one_worker { Replays two_hops_run alone one_round_shown }
    ensures run_without_events { Replays until_one no_events no_events_shown }
    ensures undo_without_cause { Replays two_hops_run undo_without_cause undo_without_cause_shown }
    ensures undo_without_cause_of_its_own { Replays replayed undo_without_cause_of_its_own undo_without_cause_of_its_own_shown }
    ensures one_worker_commits { Replays replayed one_commits one_commits_shown }
    ensures closed_book { Replays replayed after_the_close whole_run_shown }
    ensures straggler_within_a_tick { Replays one_rise_on_two straggler_within_a_tick straggler_within_a_tick_shown }
{}

/// Worked sequential runs: their records before a time, and where they leave the processes.
pub fn sequential_runs_as_worked()
    ensures two_hops { HasRecords two_hops_run (tick 10) six_records }
    ensures two_hops_leave_0 { ProcessEndsWith two_hops_run 0 66049 3 }
    ensures two_hops_leave_1 { ProcessEndsWith two_hops_run 1 131330 3 }
    ensures sends_past_the_end { HasRecords two_hops_run_to_4 (tick 4) three_records }
    ensures past_the_end_0 { ProcessEndsWith two_hops_run_to_4 0 1 2 }
    ensures past_the_end_1 { ProcessEndsWith two_hops_run_to_4 1 513 3 }
    ensures one_hop { HasRecords replayed (tick 10) four_records }
    ensures one_hop_before_3 { HasRecords replayed (tick 3) below_3 }
    ensures keys_decide { HasRecords three_processes_run (tick 3) three_processes_records }
    ensures hops_within_a_tick { HasRecords two_rises_run (tick 10) risen_records }
    ensures hops_past_the_last_priority { HasRecords three_rises_run (tick 10) records_to_10 }
    ensures past_the_last_priority { ProcessEndsWith three_rises_run 0 16843009 4 }
    ensures hops_to_the_end { HasRecords three_rises_run_to_2 (tick 2) records_to_2 }
    ensures past_the_end_within_a_tick { ProcessEndsWith three_rises_run_to_2 0 65793 4 }
{}
