//! The board of a run.

ghost use Rattle.std.specs.Prelude.{◌≡◌, ◌<◌, ◌≤◌, true, false, Ok, Err, IfOk, IfErr, OnOk, OnErr, is_ok, slice_get, slice_set};
ghost use Rattle.vt_key.specs.promise.Times.{TimeAtMost, at};
ghost use Rattle.vt_key.specs.declared.fault.Fault.TheVariants.{NotLawful};
ghost use Rattle.vt_key.specs.declared.limits.TheConstants.{MAX_COUNT, MAX_END, MAX_WORKERS};
ghost use Rattle.vt_steps.specs.promise.BoardSteps.{all_set, is_clear, with_new_pass, with_open_round, with_report, after_report};
ghost use Rattle.vt_board.specs.inside.BoardOfRun.{run_with_board, opening_run, after_rounds};
ghost use Rattle.vt_board.specs.inside.Calls.{cut_outcome, takes_report, reply_of};

use crate::worker_set::WorkerSet;
use std::marker::Model;
use vt_key::{Fault, MAX_COUNT, When};

/// The outcome of a report.
#[derive(Debug, Clone, Copy, PartialEq, Eq)]
pub enum Report {
    /// The report was taken, and others are awaited in this pass.
    Waiting,
    /// All have reported, and mail of the old colour was still travelling: a new pass of the same round has begun.
    Again,
    /// All have reported, and no mail of the old colour was travelling: the round is over, and this is the new announced
    /// time.
    Announced(When),
}

/// The board of a run: which workers have cut in the open round and which have reported in its pass; the sums of
/// their counts and their least time; and the announced time. Its calls take no memory.
///
/// Contracts see the board of the definitions, with the end of the run.
#[derive(Drop)]
pub struct Board {
    end: When,
    announced: When,
    is_open: bool,
    has_cut: WorkerSet,
    has_reported: WorkerSet,
    sent: u128,
    got: u128,
    least: When,
    rounds: u64,
}

impl Model for Board {
    ghost use Rattle.vt_board.specs.inside.BoardOfRun.{BoardOfRun, IsBoardOfRun};

    ghost Value = { BoardOfRun };

    ghost use Rattle.vt_board.specs.inside.Kept.{kept_board};

    ghost view = { kept_board };

    ghost invariant = { λ b. IsBoardOfRun (kept_board b) };
}

impl Board {
    /// The board of a run of `workers` workers, from 1 to 256, that ends at `end`, from 1 to 2^62 ticks. No round is open, and
    /// the announced time is 0.
    pub fn new(workers: u32, end: When) -> Board
        requires some_worker { 1 ≤ workers }
        requires few_workers { workers ≤ MAX_WORKERS }
        requires some_time { 1 ≤ end }
        requires in_time { end ≤ at MAX_END 0 }
        ensures { result ≡ opening_run workers end }
    {
        Board::with_rounds(workers, end, 0)
    }

    /// A board as [`Board::new`] makes it, with `rounds` rounds already counted, at most 2^63.
    pub fn with_rounds(workers: u32, end: When, rounds: u64) -> Board
        requires some_worker { 1 ≤ workers }
        requires few_workers { workers ≤ MAX_WORKERS }
        requires some_time { 1 ≤ end }
        requires in_time { end ≤ at MAX_END 0 }
        requires countable { rounds ≤ MAX_COUNT }
        ensures { result ≡ after_rounds rounds (opening_run workers end) }
    {
        Board {
            end,
            announced: When::tick(0),
            is_open: false,
            has_cut: WorkerSet::none_of(workers),
            has_reported: WorkerSet::none_of(workers),
            sent: 0,
            got: 0,
            least: end,
            rounds,
        }
    }

    /// The announced time, at most the end of the run. As long as workers report what they have and have
    /// sent, nothing before it is unprocessed or travelling.
    pub fn announced(&self) -> When
        ensures announced { result ≡ self.now.board.announced }
        ensures in_time { TimeAtMost result self.now.end }
    {
        self.announced
    }

    #[tactic(auto, unfolding(vt_steps::specs::promise::BoardSteps::with_open_round))]
    /// Worker `w` cuts in the open round; if none is open, it opens a new one. Returns the announced time.
    ///
    /// [`Fault::NotLawful`]: `w` is no worker, or it has cut in the open round. [`Fault::Exhausted`]: one more round
    /// would be more than 2^63. A refused cut changes nothing.
    pub fn cut(&mut self, w: u32) -> Result<When, Fault>
        ensures cut { OnOk result (cut_outcome self.old.end w self.old.board ≡ Ok self.new.board) }
        ensures announced { IfOk result (λ time. time ≡ self.old.board.announced) }
        ensures in_time { IfOk result (λ time. TimeAtMost time self.old.end) }
        ensures refused { IfErr result (λ fault. cut_outcome self.old.end w self.old.board ≡ Err fault) }
        ensures kept { OnErr result (self.new ≡ self.old) }
        ensures same_end { self.new.end ≡ self.old.end }
    {
        if self.is_open {
            if !self.has_cut.lacks(w) {
                return Err(Fault::NotLawful);
            }
        } else {
            if !self.has_cut.knows(w) {
                return Err(Fault::NotLawful);
            }
            if self.rounds == MAX_COUNT {
                return Err(Fault::Exhausted);
            }
            self.open_round();
        }
        Ok(self.mark_cut(w))
    }

    /// Enters the cut of a worker that hasn't cut in the open round. Returns the announced time.
    fn mark_cut(&mut self, w: u32) -> When
        requires { is_clear (slice_get self.old.board.has_cut w) ≡ true }
        ensures cut { self.new ≡ run_with_board self.old (record self.old.board { has_cut = slice_set self.old.board.has_cut w true }) }
        ensures announced { result ≡ self.old.board.announced }
        ensures in_time { TimeAtMost result self.old.end }
    {
        self.has_cut.insert(w);
        self.announced
    }

    #[tactic(auto, unfolding(vt_steps::specs::promise::BoardSteps::with_report, vt_steps::specs::promise::BoardSteps::after_report))]
    /// Worker `w` reports how much mail of the old colour it has ever sent and got, and a least time. That
    /// is the least of all that it has and of all that it sent since its cut. The last report closes the pass.
    ///
    /// [`Fault::NotLawful`]: `w` is no worker, no round is open, some worker hasn't cut, `w` has reported in this
    /// pass, or the least time is below the announced time or above the end of the run. A refused report changes
    /// nothing.
    pub fn report(&mut self, w: u32, sent: u64, got: u64, least: When) -> Result<Report, Fault>
        ensures lawful { is_ok result ≡ takes_report self.old.end w least self.old.board }
        ensures reported { OnOk result (self.new ≡ run_with_board self.old (after_report self.old.end (with_report w sent got least self.old.board)).board) }
        ensures answer { IfOk result (λ report. reply_of report ≡ (after_report self.old.end (with_report w sent got least self.old.board)).reply) }
        ensures never_falls { TimeAtMost self.old.board.announced self.new.board.announced }
        ensures refused { IfErr result (λ fault. fault ≡ NotLawful) }
        ensures kept { OnErr result (self.new ≡ self.old) }
    {
        if !self.takes(w, least) {
            return Err(Fault::NotLawful);
        }
        self.add(w, sent, got, least);
        if !self.has_reported.is_full() {
            return Ok(Report::Waiting);
        }
        Ok(self.close_pass())
    }

    /// Whether a report of this least time by worker `w` is lawful.
    fn takes(&self, w: u32, least: When) -> bool
        ensures { result ≡ takes_report self.now.end w least self.now.board }
    {
        self.is_open
            && self.has_cut.is_full()
            && self.has_reported.lacks(w)
            && self.announced <= least
            && least <= self.end
    }

    #[tactic(auto, unfolding(vt_steps::specs::promise::BoardSteps::with_open_round))]
    /// Opens a round.
    fn open_round(&mut self)
        requires none_open { self.old.board.is_open ≡ false }
        requires countable { self.old.board.rounds < MAX_COUNT }
        ensures { self.new ≡ run_with_board self.old (with_open_round self.old.end self.old.board) }
    {
        self.is_open = true;
        self.has_cut.clear();
        self.rounds += 1;
        self.begin_pass();
    }

    /// Begins a pass, in which nobody has reported yet.
    fn begin_pass(&mut self)
        ensures { self.new ≡ run_with_board self.old (with_new_pass self.old.end self.old.board) }
    {
        self.has_reported.clear();
        self.sent = 0;
        self.got = 0;
        self.least = self.end;
    }

    #[tactic(auto, using(crate::proofs::Sums::summed, crate::proofs::Sums::room), unfolding(vt_steps::specs::promise::BoardSteps::with_report))]
    /// Adds the report of a worker that hasn't reported in this pass.
    fn add(&mut self, w: u32, sent: u64, got: u64, least: When)
        requires first { is_clear (slice_get self.old.board.has_reported w) ≡ true }
        requires not_past { TimeAtMost self.old.board.announced least }
        requires in_time { TimeAtMost least self.old.end }
        ensures { self.new ≡ run_with_board self.old (with_report w sent got least self.old.board) }
    {
        self.has_reported.insert(w);
        self.sent += u128::from(sent);
        self.got += u128::from(got);
        self.least = self.least.earlier(least);
    }

    #[tactic(auto, unfolding(vt_steps::specs::promise::BoardSteps::after_report))]
    /// Closes a pass in which all have reported.
    fn close_pass(&mut self) -> Report
        requires all { all_set self.old.board.has_reported ≡ true }
        ensures closed { self.new ≡ run_with_board self.old (after_report self.old.end self.old.board).board }
        ensures answer { reply_of result ≡ (after_report self.old.end self.old.board).reply }
        ensures never_falls { TimeAtMost self.old.board.announced self.new.board.announced }
    {
        if self.sent != self.got {
            self.begin_pass();
            return Report::Again;
        }
        self.announced = self.least;
        self.is_open = false;
        Report::Announced(self.announced)
    }
}
