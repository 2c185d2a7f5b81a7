//! The list of all steps, as the places of a station know it.

ghost use Rattle.std.specs.Prelude.{◌≡◌, ℕ, ◌<◌, List, ◌++◌, map, set};
ghost use Rattle.std.specs.List.{AllByRecursion};
ghost use mathlib.Core.Option.{some};
ghost use lib.ListN.{get_elem?};
ghost use Rattle.vt_model.specs.declared.settings.Config.{Config};
ghost use Rattle.vt_model.specs.promise.Simulation.{Simulation};
ghost use Rattle.vt_steps.specs.inside.Marked.{Marked, Made, marked};
ghost use Rattle.vt_places.specs.declared.view.View.{View};
ghost use Rattle.vt_places.specs.inside.Kept.{TableState, HasGrown, IsTableRight};

/// There is one list of all steps, and it grows at its end alone. Each place knows the list as its last visit left it, and its
/// worker has made no step since. These beginnings determine the list: two lists that fit all of them are equal (`told`). So
/// each state of the table that keeps the rule has one list (`one`). Let one place's view change, to one that knows the list
/// with more behind it, and that has more steps of its own. Then the list of the next state is the former one with these
/// steps at its end (`next`). A visit adds the local steps and its step at the cell. A claim, and a release that leaves the
/// cell as it was, add none.
pub fn places_tell_the_list<S, P>()
    ghost sim: { Simulation S P }
    ensures told { (workers : ℕ) (log other : List Marked) → AllByRecursion (λ m. m.worker < workers) log → AllByRecursion (λ m. m.worker < workers) other →
        ((q : ℕ) → q < workers → (former : List Marked) × HasGrown q former log × HasGrown q former other) → log ≡ other }
    ensures one { (config : Config) (s : TableState P) (k l : IsTableRight sim config s) → k.log ≡ l.log }
    ensures next { (config : Config) (s t : TableState P) (id : ℕ) (v w : View P) (made : List Made) (more : List Marked) (k : IsTableRight sim config s) (l : IsTableRight sim config t) →
        get_elem? s.views id ≡ some v → t.views ≡ set s.views id w → w.worker ≡ v.worker → w.log ≡ v.log ++ more → w.mine ≡ v.mine ++ made →
        l.log ≡ k.log ++ marked v.worker (map (λ m. m.step) made) }
{}
