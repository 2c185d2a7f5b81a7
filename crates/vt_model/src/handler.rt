//! What a model is.

ghost use Rattle.std.specs.Prelude.{◌≡◌, ◌<◌, ◌≤◌, ◌^◌, ℕ, []};
ghost use Rattle.vt_key.specs.promise.Times.{Time};
ghost use Rattle.vt_stream.specs.inside.Words.{word_of, moved};
ghost use Rattle.vt_model.specs.inside.Sends.{with_requests};
ghost use Rattle.vt_model.specs.promise.Handler.{Handlers};
ghost use Rattle.vt_model.specs.inside.Handler.{IsWithinLimits, IsFresh, IsUndrawn, AreWords};
ghost use Rattle.vt_model.specs.inside.Drawn.{drawn_in, stream_in, IsSameSource};
ghost use prog.Memory.{size, align};
ghost use denote.Memory.{lone};

use crate::{Bits, Draws, Out};
use vt_key::When;

/// A model of a simulation: what its logical processes do at the start and at each event, and how an event is undone.
///
/// A process's state changes only when the process receives an event, and no other process sees it. A handler reads nothing
/// but its arguments and the words that it draws, so a run is a function of the model, the config and the seed. It takes no
/// memory and can't fail.
///
/// For a run on workers the model is `Sync`, and a state and what is kept are `Send`. A state, a payload and what is kept are best small:
/// each event copies them.
///
/// A model brings the member `handlers`, which says what its handlers give, and proofs of the laws below it.
/// `docs/MODEL_GUIDE.md` says how to write one.
pub trait Model {
    /// The state of one logical process. Its size is fixed, as handlers take no memory.
    type State: Drop;

    /// What an event carries beside its time, its sender and its receiver.
    type Payload: Copy + Send;

    /// What `forward` keeps for `reverse` beside the state and the bits: the old values that it overwrites. It is stored
    /// with each event that may still be undone.
    type Kept: Copy;

    /// What each handler gives, as a function of what it is handed.
    ghost handlers: { Self → Handlers Self.State Self.Payload Self.Kept };

    /// The states that a process can be in. Numbers are unbounded in the laws below, so this states their bounds. No
    /// handler requires it.
    ghost IsState: { Self → Self.State → Type 0 };

    /// Makes the state of process `lp`, and sends its first events. A start is at tick 0 with priority 0, and each event is received
    /// later than that. It makes no records, and is never undone.
    ///
    /// `draws` and `out` are as their `new` gives them, and `lp` is below `out.lps()`.
    fn start(&self, lp: u32, draws: &mut Draws<'_>, out: &mut Out<Self::Payload>) -> Self::State
        requires undrawn { IsUndrawn (drawn_in draws.old) (stream_in draws.old) }
        requires fresh { IsFresh out.old lp 0 }
        ensures state { result ≡ ((handlers self.now).start out.old.lps lp (word_of (stream_in draws.old))).state }
        ensures same_reference { IsSameSource draws.old draws.new }
        ensures drawn { drawn_in draws.new ≡ ((handlers self.now).start out.old.lps lp (word_of (stream_in draws.old))).drawn }
        ensures stream { stream_in draws.new ≡ moved (stream_in draws.old) ((handlers self.now).start out.old.lps lp (word_of (stream_in draws.old))).drawn }
        ensures out { out.new ≡ with_requests out.old ((handlers self.now).start out.old.lps lp (word_of (stream_in draws.old))).send_requests [] };

    /// Executes an event at process `lp` and time `now`, its receive time, which is before the end of the run. It changes the
    /// state, and may set bits, draw words, send events and make records. It returns what `reverse` needs and can't find in the
    /// state, the bits and the payload.
    ///
    /// The events of a process come in the order of their keys: by time, then by sending process, then by send number. A send
    /// that would be received at the end of the run or later isn't sent, and the handler isn't told.
    ///
    /// `draws` and `out` are as their `new` gives them, `bits` are all clear, and `lp` is below `out.lps()`. Nothing is
    /// required of the state and the payload: it has to work at every value of their types.
    fn forward(
        &self,
        lp: u32,
        now: When,
        payload: Self::Payload,
        state: &mut Self::State,
        bits: &mut Bits,
        draws: &mut Draws<'_>,
        out: &mut Out<Self::Payload>,
    ) -> Self::Kept
        requires undrawn { IsUndrawn (drawn_in draws.old) (stream_in draws.old) }
        requires fresh { IsFresh out.old lp now }
        requires clear { bits.old.flags ≡ 0 }
        ensures kept { result ≡ ((handlers self.now).forward out.old.lps lp now payload state.old (word_of (stream_in draws.old))).kept }
        ensures state { state.new ≡ ((handlers self.now).forward out.old.lps lp now payload state.old (word_of (stream_in draws.old))).state }
        ensures bits { bits.new ≡ ((handlers self.now).forward out.old.lps lp now payload state.old (word_of (stream_in draws.old))).bits }
        ensures same_reference { IsSameSource draws.old draws.new }
        ensures drawn { drawn_in draws.new ≡ ((handlers self.now).forward out.old.lps lp now payload state.old (word_of (stream_in draws.old))).drawn }
        ensures stream { stream_in draws.new ≡ moved (stream_in draws.old) ((handlers self.now).forward out.old.lps lp now payload state.old (word_of (stream_in draws.old))).drawn }
        ensures out { let gives = (handlers self.now).forward out.old.lps lp now payload state.old (word_of (stream_in draws.old)) in out.new ≡ with_requests out.old gives.send_requests gives.record_requests };

    /// Undoes an event: it restores the state from before its `forward`. It is handed the state, the bits and what was kept, as
    /// `forward` left them, and the same `lp`, `now` and `payload`. It draws nothing, sends nothing and makes no records: the
    /// simulator takes those back by itself.
    ///
    /// Nothing is required here either. At other values it has to give what the definitions say. That it restores the state is
    /// the law `undoes`.
    fn reverse(
        &self,
        lp: u32,
        now: When,
        payload: Self::Payload,
        state: &mut Self::State,
        bits: Bits,
        kept: Self::Kept,
    )
        ensures { state.new ≡ (handlers self.now).reverse lp now payload state.old bits kept };

    /// The final value of process `lp`, made of its last state when no event is pending any more.
    fn finish(&self, lp: u32, state: &Self::State) -> u64
        ensures { result ≡ (handlers self.now).finish lp state.now };

    /// A start keeps the limits of a handler.
    ghost start_within: { (m : Self) (lps lp : ℕ) (words : ℕ → ℕ) → lp < lps → AreWords words
        → IsWithinLimits lps 0 ((handlers m).start lps lp words).drawn ((handlers m).start lps lp words).send_requests [] };

    /// An event keeps the limits of a handler.
    ghost forward_within: { (m : Self) (lps lp : ℕ) (now : Time) (p : Self.Payload) (s : Self.State) (words : ℕ → ℕ) → lp < lps → AreWords words
        → IsWithinLimits lps now ((handlers m).forward lps lp now p s words).drawn ((handlers m).forward lps lp now p s words).send_requests ((handlers m).forward lps lp now p s words).record_requests };

    /// A process can be in the state that its start makes.
    ghost start_state: { (m : Self) (lps lp : ℕ) (words : ℕ → ℕ) → IsState m ((handlers m).start lps lp words).state };

    /// From a state that a process can be in, an event leads to another.
    ghost forward_state: { (m : Self) (lps lp : ℕ) (now : Time) (p : Self.Payload) (s : Self.State) (words : ℕ → ℕ) → IsState m s
        → IsState m ((handlers m).forward lps lp now p s words).state };

    /// Reverse undoes forward.
    ghost undoes: { (m : Self) (lps lp : ℕ) (now : Time) (p : Self.Payload) (s : Self.State) (words : ℕ → ℕ) → IsState m s
        → (handlers m).reverse lp now p ((handlers m).forward lps lp now p s words).state ((handlers m).forward lps lp now p s words).bits ((handlers m).forward lps lp now p s words).kept ≡ s };

    /// A payload takes less than 2^32 bytes, so that generic code may keep an array of them.
    ghost payload_size: { size (lone Self.Payload.row.mir) < 2 ^ 32 };

    /// A payload holds no type that is aligned to more than 8 bytes, as `u128` is.
    ghost payload_align: { (1 ≤ align (lone Self.Payload.row.mir)) × (align (lone Self.Payload.row.mir) ≤ 8) };

    /// What is kept takes less than 2^32 bytes.
    ghost kept_size: { size (lone Self.Kept.row.mir) < 2 ^ 32 };

    /// What is kept holds no type that is aligned to more than 8 bytes.
    ghost kept_align: { (1 ≤ align (lone Self.Kept.row.mir)) × (align (lone Self.Kept.row.mir) ≤ 8) };
}
