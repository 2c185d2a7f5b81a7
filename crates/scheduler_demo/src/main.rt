//! A scheduler of one's own drives a Time Warp run step by step, in one thread. It serves the second worker only every third
//! time, so that worker's letters come late, and the first worker has executed ahead of them.
#![tactic(auto)]

use std::alloc::Global;
use vt_key::{Fault, Stamp};
use vt_model::Config;
use vt_models::Hop;
use vt_steps::Step;
use vt_text::{Version, print_records};
use vt_world::World;

// Logical processes: process p belongs to worker p mod WORKERS.
const LPS: u32 = 4;

const WORKERS: u32 = 2;

// The end of the run, in ticks.
const END: u64 = 12;

// The second worker is served in each round that this divides.
const SLOW: u64 = 3;

// More rounds than this run needs. Nothing promises that a run makes progress.
const MOST_ROUNDS: u64 = 1_000;

// More letters than come to a worker in one round, and more events than this run makes.
const MANY: u64 = 64;

/// A world, and how many undos it has taken.
#[derive(Drop)]
struct Run<'m> {
    world: World<'m, Hop>,
    undone: u64,
}

impl<'m> Run<'m> {
    /// Takes a step, and tells whether it was done. One that isn't lawful now changes nothing.
    fn take(&mut self, alloc: Global, step: Step) -> Result<bool, Fault> {
        match self.world.step(alloc, &step) {
            Ok(_) => Ok(true),
            Err(Fault::NotLawful) => Ok(false),
            Err(fault) => Err(fault),
        }
    }

    /// Takes a step as long as it is lawful, and tells how often it was.
    fn repeat(&mut self, alloc: Global, step: Step) -> Result<u64, Fault> {
        for times in 0..MANY {
            if !self.take(alloc, step)? {
                return Ok(times);
            }
        }
        Ok(MANY)
    }

    /// Lets the messages and anti-messages that have met at a process annihilate each other.
    fn cancel_all(&mut self, alloc: Global, lp: u32) -> Result<(), Fault> {
        for worker in 0..WORKERS {
            for serial in 0..MANY {
                let stamp = Stamp { worker, serial };
                self.take(alloc, Step::Cancel(lp, stamp))?;
            }
        }
        Ok(())
    }

    /// Rolls a process back as far as late letters want it, and then executes one event.
    fn advance(&mut self, alloc: Global, lp: u32) -> Result<(), Fault> {
        let undone = self.repeat(alloc, Step::Undo(lp))?;
        self.undone = self.undone.saturating_add(undone);
        self.cancel_all(alloc, lp)?;
        self.take(alloc, Step::Execute(lp))?;
        Ok(())
    }

    /// One round of a worker: mail comes in, each of its processes goes on, mail goes out, and it agrees on global virtual time.
    // docs/WORLD.md quotes it.
    fn serve(&mut self, alloc: Global, worker: u32) -> Result<(), Fault> {
        self.take(alloc, Step::Fetch(worker))?;
        self.repeat(alloc, Step::Accept(worker, 0))?;
        self.repeat(alloc, Step::Home(worker))?;
        for lp in 0..LPS {
            if lp % WORKERS == worker {
                self.advance(alloc, lp)?;
            }
        }
        for other in 0..WORKERS {
            self.take(alloc, Step::Send(worker, other))?;
        }
        if !self.take(alloc, Step::Cut(worker))? {
            self.take(alloc, Step::Report(worker))?;
        }
        self.take(alloc, Step::Commit(worker))?;
        Ok(())
    }
}

fn main(rt: HostRuntime) -> Result<(), anyhow::Error> {
    let alloc = rt.alloc();
    let model = Hop::new(6, 1, 1, 0)?;
    let config = Config::new(LPS, WORKERS, END, 0)?;
    let mut run = Run {
        world: World::new(alloc, &model, config)?,
        undone: 0,
    };
    for round in 0..MOST_ROUNDS {
        run.serve(alloc, 0)?;
        if round % SLOW == 0 {
            run.serve(alloc, 1)?;
        }
        if run.take(alloc, Step::Close)? {
            break;
        }
    }
    print_records(
        &mut rt.stdout(),
        run.world.records(alloc)?.as_slice(),
        Version::Two,
    )?;
    if run.undone > 0 {
        println!(rt; "events were undone on the way")?;
    }
    Ok(())
}
