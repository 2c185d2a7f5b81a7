//! Packets in a network of routers on a ring with chords, each router with one finite first-in-first-out buffer.
#![tactic(auto)]

mod law;
mod network;
mod packet;

pub use law::packets_are_kept;
pub use network::{DELIVERED, DROPPED, MAX_TICKS, Network, NetworkEvent, Router};
pub use packet::{Buffer, Packet, ROOM};
