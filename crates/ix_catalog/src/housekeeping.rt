//! What a turn of housekeeping does to each bucket of one index. `HousekeepingResult` asks it while
//! it carries the turn out.

ghost use Rattle.std.specs.Prelude.{◌≡◌, IfOk};
ghost use Rattle.ix_catalog.specs.Buckets as buckets;
ghost use Rattle.ix_catalog.specs.Carried as carrying;
ghost use Rattle.ix_catalog.specs.Shelves as shelves;
ghost use Rattle.ix_catalog.specs.Turning as defs;

use ix_base::{Area, Bytes, File, NoMemory};
use ix_items::{Bucket, Entry, Rule, State};
use ix_life::{IndexView, Moves, housekeep};
use std::alloc::Global;
use std::marker::Model;

/// The moves of a turn in one index, with what carrying them out needs.
pub struct Housekeeping {
    index: Bytes,
    /// Whether the files of frozen buckets are kept.
    archive: bool,
    /// In microseconds since 1970-01-01T00:00:00Z.
    moment: i64,
    moves: Moves,
}

/// It is written out, so that each place where one is let go is a call of it, which is proved once.
impl Drop for Housekeeping {
    fn drop(self) {
        let Housekeeping {
            index: _,
            archive: _,
            moment: _,
            moves: _,
        } = self;
    }
}

impl Model for Housekeeping {
    ghost use Rattle.ix_catalog.specs.Buckets.{Turn};

    ghost Value = { Turn };

    ghost view = { λ t. record { index = t.index; archive = t.archive; moment = t.moment; moves = t.moves } };
}

/// Whether the bucket is under the rules of housekeeping. A thawed one is not.
pub fn is_live(bucket: &Bucket) -> bool
    ensures { result ≡ shelves.is_live bucket.now }
{
    match bucket.state {
        State::Hot | State::Quarantine | State::Warm | State::Cold => true,
        State::Thawed => false,
    }
}

fn is_among(ids: &[u64], id: u64) -> bool
    ensures { result ≡ buckets.is_among ids.now id }
{
    ids.contains(&id)
}

/// The rule beside a number in the list.
fn rule_of(frozen: &[(u64, Rule)], id: u64) -> Option<Rule>
    ensures { result ≡ buckets.rule_of frozen.now id }
{
    for i in 0..frozen.len() {
        if frozen[i].0 == id {
            return Some(frozen[i].1);
        }
    }
    None
}

/// The bucket once it has rolled to warm.
pub fn rolled(bucket: Bucket) -> Bucket
    ensures { result ≡ buckets.rolled bucket }
{
    Bucket {
        state: State::Warm,
        ..bucket
    }
}

/// The bucket once it has moved to cold, into a file of its own there.
pub fn cooled(file: u64, bucket: Bucket) -> Bucket
    ensures { result ≡ buckets.cooled file bucket }
{
    Bucket {
        state: State::Cold,
        file: File {
            area: Area::Cold,
            number: file,
        },
        ..bucket
    }
}

impl Housekeeping {
    /// The turn of housekeeping in an index at a moment.
    pub fn of(alloc: Global, moment: i64, view: &IndexView) -> Result<Self, NoMemory>
        ensures { IfOk result (λ turn. turn ≡ defs.turn_of moment view.now) }
    {
        Ok(Housekeeping {
            index: view.name.copy()?,
            archive: view.limits.archive,
            moment,
            moves: housekeep(alloc, &view.buckets, &view.limits, moment)?,
        })
    }

    /// Whether the files of frozen buckets are kept.
    pub fn archives(&self) -> bool
        ensures { result ≡ self.now.archive }
    {
        self.archive
    }

    /// The buckets that freeze, each with its rule, in the order in which they do.
    pub fn frozen(&self) -> &[(u64, Rule)]
        ensures { result.now ≡ self.now.moves.frozen }
    {
        self.moves.frozen.as_slice()
    }

    /// The rule by which a bucket freezes, where it does.
    pub fn freezes_by(&self, bucket: &Bucket) -> Option<Rule>
        ensures { result ≡ defs.freezes_by self.now bucket.now }
    {
        if is_live(bucket) {
            rule_of(self.moves.frozen.as_slice(), bucket.id)
        } else {
            None
        }
    }

    /// Whether the bucket moves to cold, where it does not freeze.
    pub fn cools(&self, bucket: &Bucket) -> bool
        ensures { result ≡ defs.cools self.now bucket.now }
    {
        is_live(bucket) && is_among(self.moves.cooled.as_slice(), bucket.id)
    }

    /// Whether the bucket rolls to warm, where it neither freezes nor moves to cold.
    pub fn warms(&self, bucket: &Bucket) -> bool
        ensures { result ≡ carrying.warms self.now bucket.now }
    {
        is_live(bucket) && is_among(self.moves.warmed.as_slice(), bucket.id)
    }

    /// The entry of a bucket that freezes by a rule; an archive has the file of this number.
    pub fn entry(&self, file: u64, rule: Rule, bucket: &Bucket) -> Result<Entry, NoMemory>
        ensures { IfOk result (λ entry. entry ≡ buckets.entry_of self.now file rule bucket.now) }
    {
        Ok(Entry {
            index: self.index.copy()?,
            id: bucket.id,
            rule,
            moment: self.moment,
            count: bucket.count,
            newest: bucket.newest,
            oldest: bucket.oldest,
            bytes: bucket.bytes,
            archive: if self.archive { Some(file) } else { None },
        })
    }
}
