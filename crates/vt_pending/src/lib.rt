//! The queue of the letters that wait at a logical process, in the order of their ranks.
//!
//! A [`Pending`] holds letters in strictly rising rank: by key, and among letters of one key by stamp. A process has
//! two of them: one for its unprocessed messages, whose least letter is executed next, and one for anti-messages that
//! wait for their messages. A letter that is cancelled is found by its stamp. Contracts see a queue as the list of
//! its letters, and say nothing of how they are kept.
//!
//! The letters lie in 64 lists, by their ticks modulo 64. The lists that aren't empty stand in the order of their
//! first letters, and one word tells which they are. So the least letter is the first one of the first list, and a
//! rank is looked up only in the list of its time.
//!
//! Letters come and go as parcels of `vt_list`, which bring their nodes. No call takes memory. So a rollback that
//! puts an event back, and an anti-message that takes one out, can't fail for want of memory.
#![tactic(auto)]

mod buckets;
mod mask;
mod pending;

pub use pending::Pending;
