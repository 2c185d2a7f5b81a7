//! The models of the program: how each is made, run and replayed.

ghost use Rattle.std.specs.Prelude.{◌≡◌, ◌⊎◌, OnOk, IfOk, IfErr, Ok, Err, Some};
ghost use Rattle.clap.specs.Words.{Text};
ghost use Rattle.vt_options.specs.promise.Own.{AreInRange};
ghost use Rattle.vt_tasks.specs.inside.Models.{CarriesOut};
ghost use Rattle.vt_tasks.specs.inside.Tasks.{BeginsWithinLimit, IsTaskDone, TaskEnds, KeepsInput};
ghost use Rattle.vt_command.specs.promise.Table.{hop_table, phold_table, stations_table};
ghost use Rattle.vt_program.specs.promise.Programs.{option_of};
ghost use Rattle.vt_program.specs.promise.Models.{IsMadeOf, Makes, hop_values, phold_values, stations_values, meaning_of};
ghost use Rattle.vt_program.specs.inside.Models.{IsChoice};

use crate::programs::{ProgramRefusal, fault_of, program_model};
use std::alloc::Global;
use std::io::{Read, Write};
use std::sync::Wait;
use std::thread::Threads;
use vt_guest::Guest;
use vt_key::Fault;
use vt_model::Config;
use vt_models::{Hop, Phold, Stations};
use vt_options::{Chosen, Task};
use vt_runner::Files;
use vt_watch::Watch;

/// One of the models of the program, made of the values of its options, or the program that takes their place.
#[derive(Drop)]
pub enum TwarpModel {
    /// Tokens that hop from process to process.
    Hop(Hop),
    /// Events that each schedule one other.
    Phold(Phold),
    /// A closed network of queues with one server each.
    Stations(Stations),
    /// A program whose first state is at most 64 bytes.
    Guest64(Guest<64>),
    /// A program whose first state is at most 256 bytes.
    Guest256(Guest<256>),
    /// A program whose first state is at most 1,024 bytes.
    Guest1024(Guest<1024>),
    /// A program whose first state is larger.
    Guest4096(Guest<4096>),
}

fn hop_of(values: &[u32]) -> Hop
    requires { AreInRange hop_table values.now }
    ensures { values.now ≡ hop_values result }
{
    let [hops, stride, delay, rise] = values else {
        unreachable!();
    };
    let Ok(model) = Hop::new(*hops, *stride, *delay, *rise) else {
        unreachable!();
    };
    model
}

fn phold_of(values: &[u32]) -> Phold
    requires { AreInRange phold_table values.now }
    ensures { values.now ≡ phold_values result }
{
    let [population, remote, lookahead, span] = values else {
        unreachable!();
    };
    let Ok(model) = Phold::new(*population, *remote, *lookahead, *span) else {
        unreachable!();
    };
    model
}

fn stations_of(values: &[u32]) -> Stations
    requires { AreInRange stations_table values.now }
    ensures { values.now ≡ stations_values result }
{
    let [jobs, service, travel] = values else {
        unreachable!();
    };
    let Ok(model) = Stations::new(*jobs, *service, *travel) else {
        unreachable!();
    };
    model
}

/// The model of the table that the words choose, made of the values that they give to its options.
fn own_model(chosen: &Chosen<'_>) -> TwarpModel
    requires { IsChoice chosen.now }
    ensures { IsMadeOf chosen.now result }
{
    let values = chosen.values.as_slice();
    match chosen.model {
        0 => TwarpModel::Hop(hop_of(values)),
        1 => TwarpModel::Phold(phold_of(values)),
        _ => TwarpModel::Stations(stations_of(values)),
    }
}

/// The model that the words choose, or the program in its place, and the config with which it is run.
pub(crate) fn model_of<D: Files>(
    alloc: Global,
    files: &D,
    chosen: &Chosen<'_>,
    config: Config,
) -> Result<(TwarpModel, Config), ProgramRefusal>
    requires { IsChoice chosen.now }
    ensures ok { IfOk result (λ made. Makes (D.told files.now) chosen.now config (Ok made)) }
    ensures err { IfErr result (λ refusal. (refusal ≡ ProgramRefusal.Memory) ⊎ ((bad : Text) × Makes (D.told files.now) chosen.now config (Err bad) × (option_of refusal ≡ Some bad))) }
{
    match &chosen.program {
        Some(program) => program_model(alloc, files, program, chosen.lps, config),
        None => Ok((own_model(chosen), config)),
    }
}

/// Runs a model or replays steps on it, as [`vt_runner::carry_out`] does.
pub(crate) fn carry_out<H: Threads + Wait + Sync, W: Watch + Sync, R: Read, O: Write>(
    rt: &H,
    alloc: Global,
    model: &TwarpModel,
    task: &Task,
    watch: &W,
    input: &mut R,
    out: &mut O,
) -> Result<(), Fault>
    requires counted { BeginsWithinLimit task.now }
    ensures ok { OnOk result (IsTaskDone (meaning_of model.now).handlers task.now (R.remaining input.old) (O.contents out.old) (O.contents out.new)) }
    ensures err { IfErr result (TaskEnds (meaning_of model.now).handlers task.now (R.remaining input.old) (O.contents out.old) (O.contents out.new)) }
    ensures unread { KeepsInput task.now (R.remaining input.old) (R.remaining input.new) }
{
    match model {
        TwarpModel::Hop(hop) => vt_runner::carry_out(rt, alloc, hop, task, watch, input, out),
        TwarpModel::Phold(phold) => vt_runner::carry_out(rt, alloc, phold, task, watch, input, out),
        TwarpModel::Stations(stations) => {
            vt_runner::carry_out(rt, alloc, stations, task, watch, input, out)
        }
        TwarpModel::Guest64(guest) => vt_runner::carry_out(
            rt, alloc, guest, task, watch, input, out,
        ),
        TwarpModel::Guest256(guest) => vt_runner::carry_out(
            rt, alloc, guest, task, watch, input, out,
        ),
        TwarpModel::Guest1024(guest) => vt_runner::carry_out(
            rt, alloc, guest, task, watch, input, out,
        ),
        TwarpModel::Guest4096(guest) => vt_runner::carry_out(
            rt, alloc, guest, task, watch, input, out,
        ),
    }
}

/// Does a task with the model that the words choose, or with the program in its place, as [`carry_out`] does. A program is refused before
/// anything is read of the input.
pub(crate) fn answer_task<H: Threads + Wait + Sync, D: Files, W: Watch + Sync, R: Read, O: Write>(
    rt: &H,
    alloc: Global,
    files: &D,
    chosen: &Chosen<'_>,
    task: &Task,
    watch: &W,
    input: &mut R,
    out: &mut O,
) -> Result<(), Fault>
    requires counted { BeginsWithinLimit task.now }
    requires choice { IsChoice chosen.now }
    ensures { CarriesOut meaning_of (Makes (D.told files.now)) chosen.now task.now (R.remaining input.old) (R.remaining input.new) (O.contents out.old) (O.contents out.new) result }
{
    match model_of(alloc, files, chosen, task.config()) {
        Ok((model, config)) => carry_out(
            rt,
            alloc,
            &model,
            &task.with_config(config),
            watch,
            input,
            out,
        ),
        Err(refusal) => Err(fault_of(&refusal)),
    }
}
