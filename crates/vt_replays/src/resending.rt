//! A replay of a small simulation.

ghost use Rattle.vt_replays.specs.inside.Replays.{Replays};
ghost use Rattle.vt_replays.specs.inside.Resending.{resending, waiting_least, waiting_least_shown};

/// A waiting anti-message can have the least time of all. Here an event is sent anew at a later time than before. If a
/// worker's report left its waiting anti-messages out, the announced time would pass an event that is undone afterwards.
pub fn waiting_anti_message_is_the_least()
    ensures { Replays resending waiting_least waiting_least_shown }
{}
