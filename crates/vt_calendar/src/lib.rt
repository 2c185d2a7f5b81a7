//! The pending letters of all processes of a worker, in the order of their ranks.
//!
//! A [`Calendar`] holds letters in strictly rising rank. Contracts see the list of them, and say nothing of how they are kept.
//!
//! Letters after the present time lie in slots by the digits of their times: a slot for each priority of the present tick, then
//! one for each value of each of the eight digits of a tick, to the base of 256. A letter's slot is that of the highest digit in
//! which its tick differs from the present one. So each letter of a slot is before each one of a later slot. When no letter of
//! the present time is left, the first slot with a letter is opened, and the present time becomes that of its first letter: those of
//! that time are put in order, and the others go to slots of lower digits. So only letters of one time are ever put in order.
//!
//! Letters come and go as parcels, which bring their nodes. So only making a calendar takes memory.
#![tactic(auto)]

mod calendar;
mod digits;
mod order;
mod slots;

pub use calendar::Calendar;
