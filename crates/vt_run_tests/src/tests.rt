//! Runs on workers, and what is told of them.

mod finals;
mod gates;
mod lines;
mod listener;
mod pieces;
mod running;
mod told;
mod watching;
