//! One junction: its lights, its queues and the car that is crossing.

ghost use Rattle.std.specs.Prelude.{◌≡◌, ◌+◌, ◌<◌, []};
ghost use Rattle.vt_model.specs.declared.limits.TheConstants.{MAX_SENDS};
ghost use Rattle.vt_model.specs.inside.Sends.{with_requests};

use vt_model::Out;

/// The kind of a record of how many cars wait at the lights of a junction.
pub const WAITING: u32 = 1;

/// The kind of a record of how many cars have passed a junction.
pub const PASSED: u32 = 2;

// How long a car takes to cross a junction, in ticks.
const CROSSING: u64 = 1;

/// One of the two roads that meet at a junction, by where it leads. Each is one-way.
#[derive(Debug, Clone, Copy, PartialEq, Eq)]
pub enum Road {
    /// The road to the east.
    Eastward,
    /// The road to the south.
    Southward,
}

impl Road {
    ghost use Rattle.vt_traffic.specs.inside.Junction.{other_road};

    /// The road that crosses this one.
    pub fn other(self) -> Road
        ensures { result ≡ other_road self }
    {
        match self {
            Road::Eastward => Road::Southward,
            Road::Southward => Road::Eastward,
        }
    }
}

/// What happens at a junction.
#[derive(Debug, Clone, Copy, PartialEq, Eq)]
pub enum JunctionEvent {
    /// A car comes to the lights on this road.
    Arrive(Road),
    /// The car that is crossing leaves the junction.
    Leave,
    /// The lights change.
    Change,
}

/// The state of a junction. Its numbers are modulo 2^64.
#[derive(Debug, Clone, Copy, PartialEq, Eq)]
pub struct Junction {
    /// The road that has green. The other has red.
    pub green: Road,
    /// How many cars wait on the road that has green.
    pub at_green: u64,
    /// How many cars wait on the road that has red.
    pub at_red: u64,
    /// The road by which the car that is crossing came, if one is.
    pub crossing: Option<Road>,
    /// How many cars have passed.
    pub passed: u64,
}

impl Junction {
    ghost use Rattle.vt_traffic.specs.inside.Junction.{waiting, joined, unjoined, changed, can_enter, entered, entry};

    /// How many cars wait at the lights.
    pub fn waiting(&self) -> u64
        ensures { result ≡ waiting self.now }
    {
        self.at_green.wrapping_add(self.at_red)
    }

    /// A car joins the queue on its road.
    pub fn join(&mut self, road: Road)
        ensures { self.new ≡ joined road self.old }
    {
        if road == self.green {
            self.at_green = self.at_green.wrapping_add(1);
        } else {
            self.at_red = self.at_red.wrapping_add(1);
        }
    }

    /// Undoes [`Junction::join`].
    pub fn unjoin(&mut self, road: Road)
        ensures { self.new ≡ unjoined road self.old }
    {
        if road == self.green {
            self.at_green = self.at_green.wrapping_sub(1);
        } else {
            self.at_red = self.at_red.wrapping_sub(1);
        }
    }

    /// The lights change: who waited at green now waits at red. Done twice, it changes nothing.
    pub fn change(&mut self)
        ensures { self.new ≡ changed self.old }
    {
        self.green = self.green.other();
        let at_green = self.at_green;
        self.at_green = self.at_red;
        self.at_red = at_green;
    }

    #[tactic(auto, using(vt_model::proofs::RequestLemmas::no_requests))]
    /// The first car at green enters, if one waits there and none is crossing: it leaves a tick later. Answers whether it
    /// does. `lp` is the junction's process, below [`Out::lps`], and there must be room ([`Out::room`]).
    pub fn enter(&mut self, lp: u32, out: &mut Out<JunctionEvent>) -> bool
        requires known { lp < out.old.lps }
        requires room { out.old.number < out.old.first + MAX_SENDS }
        ensures answer { result ≡ can_enter self.old }
        ensures junction { self.new ≡ entered self.old }
        ensures out { out.new ≡ with_requests out.old (entry lp self.old) [] }
    {
        let enters = self.at_green != 0 && self.crossing.is_none();
        if enters {
            self.at_green -= 1;
            self.crossing = Some(self.green);
            out.send(lp, CROSSING, 0, JunctionEvent::Leave);
        }
        enters
    }
}
