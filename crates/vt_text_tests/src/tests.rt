//! Texts that are read and printed.

mod command;
mod records;
mod steps;
mod taken;
mod told;
