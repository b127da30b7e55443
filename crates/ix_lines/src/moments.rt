//! The moments of the bytes that wait, as runs of equal ones. `Pending` keeps them, and the walk
//! over its bytes asks for the moment at which each line begins.

ghost use Rattle.std.specs.Prelude.{◌≡◌, ◌-◌, ◌<◌, ◌≤◌, ◌++◌, List, length, drop, replicate, get_or, pos, OnOk};
ghost use Rattle.ix_lines.specs.Moments.{moments_of, PointsInto};

use ix_base::NoMemory;

/// So many equal moments.
#[derive(Clone, Copy)]
pub struct Run {
    pub count: usize,
    pub moment: i64,
}

/// Adds so many equal moments at the end.
pub fn add_moments(runs: &mut Vec<Run>, count: usize, moment: i64) -> Result<(), NoMemory>
    ensures { OnOk result (moments_of runs.new.items ≡ moments_of runs.old.items ++ replicate count moment) }
{
    let n = runs.len();
    if n > 0 && runs[n - 1].moment == moment && runs[n - 1].count <= usize::MAX - count {
        runs[n - 1].count += count;
        return Ok(());
    }
    runs.push(Run { count, moment })?;
    Ok(())
}

/// How many whole runs stand among the first moments, and how many of these the next run has.
fn whole_runs(runs: &[Run], n: usize) -> (usize, usize)
    ensures within { result.0 ≤ length runs.now }
    ensures left { result.0 < length runs.now → result.1 < (get_or runs.now result.0 (record { count = 0; moment = pos 0 })).count }
    ensures value { drop n (moments_of runs.now) ≡ drop result.1 (moments_of (drop result.0 runs.now)) }
{
    let mut gone: usize = 0;
    let mut left = n;
    while gone < runs.len() && runs[gone].count <= left {
        left -= runs[gone].count;
        gone += 1;
    }
    (gone, left)
}

fn drop_runs(runs: &mut Vec<Run>, n: usize)
    requires { n ≤ length runs.old.items }
    ensures { runs.new.items ≡ drop n runs.old.items }
{
    let _ = runs.drain(..n);
}

/// Drops the first moments of the first run.
fn shorten(runs: &mut Vec<Run>, n: usize)
    requires { 0 < length runs.old.items → n < (get_or runs.old.items 0 (record { count = 0; moment = pos 0 })).count }
    ensures { moments_of runs.new.items ≡ drop n (moments_of runs.old.items) }
{
    if !runs.is_empty() {
        runs[0].count -= n;
    }
}

/// Drops the first moments.
pub fn drop_moments(runs: &mut Vec<Run>, n: usize)
    ensures { moments_of runs.new.items ≡ drop n (moments_of runs.old.items) }
{
    let (gone, left) = whole_runs(runs, n);
    drop_runs(runs, gone);
    shorten(runs, left);
}

/// A place among runs, which only moves on: so a walk that asks for the moments of rising places
/// passes each run once.
#[derive(Clone, Copy)]
pub struct Cursor {
    /// The number of the run before which it stands.
    run: usize,
    /// How many moments the runs before it have.
    passed: usize,
}

impl Cursor {
    /// A cursor before all moments.
    pub fn new() -> Cursor
        ensures stands { (runs : List Run) → PointsInto runs result }
        ensures passed { result.passed ≡ 0 }
    {
        Cursor { run: 0, passed: 0 }
    }

    /// Moves on to the run that has the place.
    fn advance(&mut self, runs: &[Run], place: usize)
        requires stands { PointsInto runs.now self.old }
        requires on { self.old.passed ≤ place }
        ensures stands { PointsInto runs.now self.new }
        ensures on { self.new.passed ≤ place }
        ensures near { self.new.run < length runs.now →
            place - self.new.passed < (get_or runs.now self.new.run (record { count = 0; moment = pos 0 })).count }
    {
        while self.run < runs.len() && runs[self.run].count <= place - self.passed {
            self.passed += runs[self.run].count;
            self.run += 1;
        }
    }

    /// The moment at a place. The place is no lower than the last one that was asked for.
    pub fn moment_at(&mut self, runs: &[Run], place: usize) -> i64
        requires stands { PointsInto runs.now self.old }
        requires on { self.old.passed ≤ place }
        ensures moment { place < length (moments_of runs.now) → result ≡ get_or (moments_of runs.now) place (pos 0) }
        ensures stands { PointsInto runs.now self.new }
        ensures on { self.new.passed ≤ place }
    {
        self.advance(runs, place);
        if self.run < runs.len() {
            runs[self.run].moment
        } else {
            0
        }
    }
}
