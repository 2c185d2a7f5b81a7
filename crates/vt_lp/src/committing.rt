//! Past events that are committed: their rows, and how they are forgotten.

ghost use Rattle.std.specs.Prelude.{◌≡◌, ◌++◌, List, IfOk, IfErr};
ghost use Rattle.vt_key.specs.declared.fault.Fault.TheVariants.{Memory};
ghost use Rattle.vt_model.specs.declared.rows.Row.{Row};
ghost use Rattle.vt_model.specs.promise.Handler.{Handlers};
ghost use Rattle.vt_model.specs.promise.Simulation.{simulation_of, rows_of};
ghost use Rattle.vt_steps.specs.promise.World.{LogicalProcess};
ghost use Rattle.vt_steps.specs.promise.PartSteps.{ripe_rows, process_after_commit};
ghost use Rattle.vt_lp.specs.inside.Held.{StandsFor, executed_events};
ghost use Rattle.vt_lp.specs.inside.Ripe.{unripe_events, rows_of_ripe};

use crate::Lp;
use std::alloc::Global;
use vt_key::{Event, Fault, Key, When};
use vt_list::List;
use vt_model::{Model as EventModel, Record, Row};
use vt_past::{Past, PastEvent, Records};

impl<M: EventModel> Lp<M> {
    /// The past events, in the order of their execution.
    ///
    /// [`Fault::Memory`]: memory was refused.
    pub fn past_events(&self, alloc: Global) -> Result<Vec<Event<M::Payload>>, Fault>
        ensures events { IfOk result (λ v. v.items ≡ executed_events self.now.past) }
        ensures refused { IfErr result (λ fault. fault ≡ Memory) }
    {
        let mut events = Vec::new(alloc);
        for past_event in self.past.events().iter() {
            let Ok(()) = events.push(past_event.letter.get().event) else {
                return Err(Fault::Memory);
            };
        }
        Ok(events)
    }

    /// Appends the rows of the past events before the floor, in the order of their execution. These are the events
    /// that [`Lp::fossil`] forgets.
    ///
    /// [`Fault::Memory`]: memory was refused, and the rows are unchanged.
    pub fn ripe(&self, floor: When, rows: &mut Vec<Row>) -> Result<(), Fault>
        ensures rows { (handlers : Handlers _ _ _) (h : LogicalProcess _) → StandsFor handlers self.now h → IfOk result (λ done. rows.new.items ≡ rows.old.items ++ ripe_rows (simulation_of handlers self.now.config) self.now.lp floor h) }
        ensures appended { IfOk result (λ done. rows.new.items ≡ rows.old.items ++ rows_of_ripe floor self.now.past) }
        ensures refused { IfErr result (λ fault. (fault ≡ Memory) × (rows.new.items ≡ rows.old.items)) }
    {
        let others = rows.len();
        let appended = append_ripe(self.past.events(), floor, rows);
        if appended.is_err() {
            rows.truncate(others);
        }
        appended
    }

    /// Forgets the past events before the floor, which are committed (fossil collection). It takes no memory.
    pub fn fossil(&mut self, floor: When)
        ensures committed { (handlers : Handlers _ _ _) (h : LogicalProcess _) → StandsFor handlers self.old h → StandsFor handlers self.new (process_after_commit floor h) }
        ensures same { (self.new.lp ≡ self.old.lp) × (self.new.config ≡ self.old.config) × (self.new.triple ≡ self.old.triple) × (self.new.pending ≡ self.old.pending) × (self.new.waiting ≡ self.old.waiting) }
        ensures past { self.new.past ≡ unripe_events floor self.old.past }
    {
        drop_ripe(&mut self.past, floor);
    }
}

/// Drops the first past events, as many as are before the floor.
fn drop_ripe<P: Copy, K: Copy>(past: &mut Past<P, K>, floor: When)
    ensures { past.new ≡ unripe_events floor past.old }
{
    while let Some(first) = past.front() {
        if first.key.when() >= floor {
            break;
        }
        past.pop_front();
    }
}

/// Appends the rows of the first past events, as many as are before the floor. If memory is refused, some may have been
/// appended.
fn append_ripe<P: Copy, K: Copy>(
    past: &List<PastEvent<P, K>>,
    floor: When,
    rows: &mut Vec<Row>,
) -> Result<(), Fault>
    ensures rows { IfOk result (λ done. rows.new.items ≡ rows.old.items ++ rows_of_ripe floor past.now) }
    ensures refused { IfErr result (λ fault. (fault ≡ Memory) × ((some : List Row) × (rows.new.items ≡ rows.old.items ++ some))) }
{
    for event in past.iter() {
        let key = event.key;
        if key.when() >= floor {
            break;
        }
        append_rows(key, &event.records, rows)?;
    }
    Ok(())
}

/// Appends the rows of an event's records. If memory is refused, some may have been appended.
fn append_rows(key: Key, records: &Records, rows: &mut Vec<Row>) -> Result<(), Fault>
    ensures rows { IfOk result (λ done. rows.new.items ≡ rows.old.items ++ rows_of key records.now) }
    ensures refused { IfErr result (λ fault. (fault ≡ Memory) × ((some : List Row) × (rows.new.items ≡ rows.old.items ++ some))) }
{
    let key = &key;
    let mut index = 0;
    for record in records.as_slice() {
        let row = Row {
            key: *key,
            index,
            rec: *record,
        };
        rows.push(row).map_err(|_| Fault::Memory)?;
        index += 1;
    }
    Ok(())
}
