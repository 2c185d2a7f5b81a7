//! The network and its routers.

ghost use Rattle.std.specs.Prelude.{◌≡◌, ◌+◌, ◌<◌, ◌≤◌, [], length, None, IfOk, IfErr};
ghost use Rattle.std.specs.Option.{IsSome};
ghost use Rattle.vt_key.specs.promise.Faults.{option_named};
ghost use Rattle.vt_key.specs.declared.limits.TheConstants.{MAX_PROCESSES};
ghost use Rattle.vt_model.specs.declared.limits.TheConstants.{MAX_SENDS, MAX_RECORDS};
ghost use Rattle.vt_model.specs.inside.Sends.{with_requests};
ghost use Rattle.vt_parts.specs.inside.Ring.{first};
ghost use Rattle.vt_network.specs.declared.network.TheConstants.{MAX_TICKS};
ghost use Rattle.vt_network.specs.inside.Options.{first_bad_option};

use crate::packet::{BLANK, Buffer, Packet, ROOM};
use vt_key::{Fault, MAX_PROCESSES, When};
use vt_model::{Bits, Draws, Model as EventModel, Out};

/// The kind of a record of a packet that has reached its host. Its value is how many ticks have passed since it was made.
pub const DELIVERED: u32 = 1;

/// The kind of a record of a packet that found a full buffer and was dropped. Its value is the router whose host had made it.
pub const DROPPED: u32 = 2;

/// The most ticks that an option may be.
pub const MAX_TICKS: u32 = 1_000_000;

/// What happens at a router: the payload of the model [`Network`].
#[derive(Debug, Clone, Copy, PartialEq, Eq)]
pub enum NetworkEvent {
    /// The host at this router makes a packet.
    Generate,
    /// A packet comes in.
    Arrive(Packet),
    /// The first packet of the buffer has been served.
    Served,
}

/// The state of a router. Its counts are modulo 2^64.
#[derive(Debug, Clone, Copy, PartialEq, Eq)]
pub struct Router {
    /// The packets that wait, and the one that is served, which is the first.
    pub queue: Buffer,
    /// How many packets its host has made.
    pub made: u64,
    /// How many packets have reached its host.
    pub delivered: u64,
    /// How many packets found its buffer full.
    pub dropped: u64,
}

/// Routers on a ring with chords. Router `p` has links to `p + 1`, `p - 1`, `p + columns` and `p - columns`, modulo their
/// number.
///
/// Each router has a host, which makes packets for routers drawn at random, with a drawn time of 1 to `gap` ticks between two. A
/// packet comes into its own router one tick after it was made. A router that isn't its destination puts it behind the others
/// into its buffer of [`ROOM`] packets, or drops it where the buffer is full. It works `service` ticks on the first packet of the
/// buffer, and sends it on over the longest link that doesn't lead too far; the way takes `link` ticks.
///
/// A packet that has reached its destination is recorded under kind [`DELIVERED`] by the ticks since it was made, one that is
/// dropped under kind [`DROPPED`] by the router that made it. The final value of a router is how many packets it has dropped.
#[derive(Debug, Clone, Copy, PartialEq, Eq)]
pub struct Network {
    /// How many routers a chord leads on, from 1 to 65,536.
    pub columns: u32,
    /// The longest time between two packets of a host, in ticks, from 1 to 1,000,000.
    pub gap: u32,
    /// The ticks that a router works on a packet, from 1 to 1,000,000.
    pub service: u32,
    /// The ticks that a packet needs on a link, from 1 to 1,000,000.
    pub link: u32,
    ghost some_columns: { 1 ≤ columns },
    ghost few_columns: { columns ≤ MAX_PROCESSES },
    ghost some_gap: { 1 ≤ gap },
    ghost short_gap: { gap ≤ MAX_TICKS },
    ghost some_service: { 1 ≤ service },
    ghost short_service: { service ≤ MAX_TICKS },
    ghost some_link: { 1 ≤ link },
    ghost short_link: { link ≤ MAX_TICKS },
}

impl Network {
    ghost use Rattle.vt_model.specs.promise.Counts.{one_more};
    ghost use Rattle.vt_network.specs.inside.Network.{longest_link, next_hop, made_sends, arrived, arrived_kept, arrived_sends, arrived_records, gone_on, goes_on, gone_sends};

    /// The network whose chords lead `columns` (1 to 65,536) routers on, with up to `gap` ticks between two packets of a host,
    /// `service` ticks of work for a packet and `link` ticks on a link (each 1 to 1,000,000).
    ///
    /// [`Fault::BadOption`] names the first that is out of its range: `columns`, `gap`, `service` or `link`.
    pub fn new(columns: u32, gap: u32, service: u32, link: u32) -> Result<Network, Fault>
        ensures good { IfOk result (λ m. first_bad_option columns gap service link ≡ None) }
        ensures same { IfOk result (λ m. (m.columns ≡ columns) × (m.gap ≡ gap) × (m.service ≡ service) × (m.link ≡ link)) }
        ensures bad { IfErr result (λ fault. IsSome (first_bad_option columns gap service link)) }
        ensures named { IfErr result (λ fault. option_named fault ≡ first_bad_option columns gap service link) }
    {
        if columns < 1 || columns > MAX_PROCESSES {
            return Err(Fault::BadOption("columns"));
        }
        if gap < 1 || gap > MAX_TICKS {
            return Err(Fault::BadOption("gap"));
        }
        if service < 1 || service > MAX_TICKS {
            return Err(Fault::BadOption("service"));
        }
        if link < 1 || link > MAX_TICKS {
            return Err(Fault::BadOption("link"));
        }
        Ok(Network {
            columns,
            gap,
            service,
            link,
        })
    }

    // The next router on the way from router `lp` to `dest`.
    fn next_hop(&self, lp: u32, dest: u32, lps: u32) -> u32
        requires known { lp < lps }
        requires few { lps ≤ MAX_PROCESSES }
        ensures { result ≡ next_hop self.now lps lp dest }
    {
        let ahead = (dest % lps + lps - lp) % lps;
        if ahead <= lps / 2 {
            (lp + self.longest_link(ahead)) % lps
        } else {
            (lp + lps - self.longest_link(lps - ahead)) % lps
        }
    }

    // The longest link that doesn't lead too far.
    fn longest_link(&self, left: u32) -> u32
        ensures { result ≡ longest_link self.now left }
    {
        if left < self.columns { 1 } else { self.columns }
    }

    #[tactic(auto, using(vt_model::proofs::RequestLemmas::sent_after))]
    // The host makes a packet.
    fn generate(
        &self,
        lp: u32,
        now: When,
        gap: u64,
        dest: u32,
        router: &mut Router,
        out: &mut Out<NetworkEvent>,
    )
        requires known { lp < out.old.lps }
        requires later { 0 < gap }
        requires room { out.old.number + 1 < out.old.first + MAX_SENDS }
        ensures router { router.new ≡ record router.old { made = one_more router.old.made } }
        ensures out { out.new ≡ with_requests out.old (made_sends lp now gap dest) [] }
    {
        router.made = router.made.wrapping_add(1);
        out.send(lp, gap, 0, NetworkEvent::Generate);
        out.send(
            lp,
            1,
            0,
            NetworkEvent::Arrive(Packet {
                source: lp,
                dest,
                born: now.ticks(),
            }),
        );
    }

    #[tactic(auto, using(vt_model::proofs::RequestLemmas::no_requests))]
    // A packet comes in.
    fn arrive(
        &self,
        lp: u32,
        now: When,
        packet: Packet,
        router: &mut Router,
        out: &mut Out<NetworkEvent>,
    ) -> Option<Packet>
        requires known { lp < out.old.lps }
        requires room { out.old.number < out.old.first + MAX_SENDS }
        requires emit_room { length out.old.records < MAX_RECORDS }
        ensures kept { result ≡ arrived_kept lp packet router.old }
        ensures router { router.new ≡ arrived lp packet router.old }
        ensures out { out.new ≡ with_requests out.old (arrived_sends self.now lp packet router.old) (arrived_records lp now packet router.old) }
    {
        if packet.dest == lp {
            router.delivered = router.delivered.wrapping_add(1);
            out.emit(DELIVERED, now.ticks().wrapping_sub(packet.born));
            return None;
        }
        if router.queue.is_full() {
            router.dropped = router.dropped.wrapping_add(1);
            out.emit(DROPPED, u64::from(packet.source));
        } else if router.queue.is_empty() {
            out.send(lp, u64::from(self.service), 0, NetworkEvent::Served);
        }
        router.queue.push(packet)
    }

    #[tactic(auto, using(vt_model::proofs::RequestLemmas::no_requests, vt_model::proofs::RequestLemmas::sent_then))]
    // The first packet goes on.
    fn serve(&self, lp: u32, router: &mut Router, out: &mut Out<NetworkEvent>) -> Option<Packet>
        requires known { lp < out.old.lps }
        requires few { out.old.lps ≤ MAX_PROCESSES }
        requires room { out.old.number + 1 < out.old.first + MAX_SENDS }
        ensures kept { result ≡ first router.old.queue }
        ensures router { router.new ≡ gone_on router.old }
        ensures out { out.new ≡ with_requests out.old (gone_sends self.now out.old.lps lp router.old) [] }
    {
        let packet = router.queue.pop()?;
        let next = self.next_hop(lp, packet.dest, out.lps());
        out.send(next, u64::from(self.link), 0, NetworkEvent::Arrive(packet));
        self.go_on(lp, &router.queue, out);
        Some(packet)
    }

    #[tactic(auto, using(vt_model::proofs::RequestLemmas::no_requests))]
    // The router goes on with the next packet, if there is one.
    fn go_on(&self, lp: u32, queue: &Buffer, out: &mut Out<NetworkEvent>)
        requires known { lp < out.old.lps }
        requires room { out.old.number < out.old.first + MAX_SENDS }
        ensures { out.new ≡ with_requests out.old (goes_on self.now lp queue.now) [] }
    {
        if !queue.is_empty() {
            out.send(lp, u64::from(self.service), 0, NetworkEvent::Served);
        }
    }
}

impl EventModel for Network {
    type State = Router;

    type Payload = NetworkEvent;

    type Kept = Option<Packet>;

    ghost use Rattle.std.proofs.Common.{lit<, lit≤};
    ghost use Rattle.vt_network.specs.inside.Network.{network_handlers, IsRouter};
    ghost use Rattle.vt_network.specs.inside.NetworkLaws.{start_within, forward_within, start_state, forward_state, undoes};

    ghost handlers = { network_handlers };

    ghost IsState = { λ m s. IsRouter s };

    fn start(&self, lp: u32, draws: &mut Draws<'_>, out: &mut Out<NetworkEvent>) -> Router {
        let first = 1 + draws.below(u64::from(self.gap));
        out.send(lp, first, 0, NetworkEvent::Generate);
        Router {
            queue: Buffer::new(BLANK),
            made: 0,
            delivered: 0,
            dropped: 0,
        }
    }

    fn forward(
        &self,
        lp: u32,
        now: When,
        payload: NetworkEvent,
        state: &mut Router,
        _bits: &mut Bits,
        draws: &mut Draws<'_>,
        out: &mut Out<NetworkEvent>,
    ) -> Option<Packet> {
        match payload {
            NetworkEvent::Generate => {
                let gap = 1 + draws.below(u64::from(self.gap));
                let dest = draws.below(u64::from(out.lps())) as u32;
                self.generate(lp, now, gap, dest, state, out);
                None
            }
            NetworkEvent::Arrive(packet) => self.arrive(lp, now, packet, state, out),
            NetworkEvent::Served => self.serve(lp, state, out),
        }
    }

    fn reverse(
        &self,
        lp: u32,
        _now: When,
        payload: NetworkEvent,
        state: &mut Router,
        _bits: Bits,
        kept: Option<Packet>,
    ) {
        match payload {
            NetworkEvent::Generate => state.made = state.made.wrapping_sub(1),
            NetworkEvent::Arrive(packet) => {
                if packet.dest == lp {
                    state.delivered = state.delivered.wrapping_sub(1);
                } else {
                    if kept.is_none() {
                        state.dropped = state.dropped.wrapping_sub(1);
                    }
                    state.queue.unpush(kept);
                }
            }
            NetworkEvent::Served => state.queue.unpop(kept),
        }
    }

    fn finish(&self, _lp: u32, state: &Router) -> u64 {
        state.dropped
    }

    ghost start_within = { start_within };

    ghost forward_within = { forward_within };

    ghost start_state = { start_state };

    ghost forward_state = { forward_state };

    ghost undoes = { undoes };

    ghost payload_size = { lit< tt };

    ghost payload_align = { (lit≤ tt, lit≤ tt) };

    ghost kept_size = { lit< tt };

    ghost kept_align = { (lit≤ tt, lit≤ tt) };
}
