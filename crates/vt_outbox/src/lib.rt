//! The letters that leave a worker's processes, until they are delivered or become mail.
//!
//! An [`Outbox`] holds them in the order in which they came, and finds those for one worker's processes without passing
//! over others. No call that puts letters in or takes them out takes memory.
#![tactic(auto)]

mod outbox;

pub use outbox::Outbox;
