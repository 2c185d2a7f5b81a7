//! What a Time Warp run means: the world of a run, its eleven steps, and what holds after any list of them.
//!
//! The definitions in `specs` are functions on plain values: they know no thread, no loop and no allocator. A world of
//! the definitions holds no state of the model, since a logical process's state follows from the events that it has
//! executed. They know a model as a `Simulation` alone, with no trait and no code.
#![tactic(auto)]

mod histories;
mod laws;
mod marked;
mod memory;
mod step;
mod theorem;

pub use histories::{
    copies_are_right, each_process_is_there, histories_are_right, letters_are_delivered,
    queues_rise, ranks_rise,
};
pub use laws::{
    letters_annihilate, letters_are_kept, local_steps_change_one_part, mail_is_kept,
    refused_steps_change_nothing, reports_are_answered, steps_act_on_one_cell,
};
pub use marked::{
    closes_are_known, cuts_are_refused_after_a_cut, others_keep_their_parts,
    own_steps_may_come_last,
};
pub use memory::{
    memory_forgets_what_is_committed, memory_goes_back, memory_goes_on,
    memory_is_where_the_history_leads, values_stay_reached,
};
pub use step::{Reply, Step};
pub use theorem::{
    closed_book_is_whole, floors_are_right, guards_never_fail, headline, records_are_right,
    values_at_the_end_are_final,
};
