//! The record that a disk in memory keeps of its calls.

ghost use Rattle.std.specs.Prelude.{◌≡◌, ◌≤◌, ◌<◌, ◌⊎◌, ◌++◌, [], ◌∷◌, OnOk, OnErr, IfOk, vec_len, vec_capacity};
ghost use Rattle.ix_base.specs.Faults.{HasCause, Rose};
ghost use Rattle.ix_base.specs.Plans.{is_due, CountsCall};
ghost use Rattle.ix_disk.specs.Recorded.{Recorded};
ghost use Rattle.ix_disk.specs.declared.past.Call.TheVariants.{Asked};

use crate::contents::{Contents, is_same_file};
use ix_base::{Bytes, FailPlan, Failed, File};

/// What the record of a disk has of a call.
#[derive(Drop)]
pub enum Call {
    /// The disk was made with these files.
    Made {
        contents: Contents,
    },
    /// A write that was begun, and whether it succeeded.
    Wrote {
        file: File,
        at: u64,
        bytes: Bytes,
        done: bool,
    },
    /// A sync, and whether it succeeded.
    Settled {
        file: File,
        done: bool,
    },
    /// A removal that was begun, and whether it succeeded.
    Removed {
        file: File,
        done: bool,
    },
    /// The length or bytes of a file were asked for. It may have failed.
    Asked {
        file: File,
    },
}

impl Call {
    ghost use Rattle.ix_disk.specs.Memory.{asks};

    /// Whether it asked for the length or the bytes of this file.
    pub fn asks(&self, of: File) -> bool
        ensures { result ≡ asks of self.now }
    {
        match self {
            Call::Asked { file } => is_same_file(of, *file),
            _ => false,
        }
    }
}

/// The calls that a disk has had, and those that are to fail.
pub struct Past {
    /// The calls, the first of them first.
    pub calls: Vec<Call>,
    /// Which calls are to fail.
    pub plan: FailPlan,
    /// How many calls found no room for what they had to keep. It stands at 2^64 - 1.
    pub shortages: u64,
}

/// It is written out, so that each place where one is let go is a call of it, which is proved once.
impl Drop for Past {
    fn drop(self) {
        let Past {
            calls: _,
            plan: _,
            shortages: _,
        } = self;
    }
}

impl Past {
    /// Counts a call and makes room for it in the record. It tells whether the call is to fail.
    pub fn begin(&mut self) -> Result<bool, Failed>
        ensures due { IfOk result (λ due. due ≡ is_due self.old.plan) }
        ensures room { OnOk result (vec_len self.new.calls < vec_capacity self.new.calls) }
        ensures same { self.new.calls.items ≡ self.old.calls.items }
        ensures short { OnErr result (Rose self.old.shortages self.new.shortages) }
        ensures ok { OnOk result (self.new.shortages ≡ self.old.shortages) }
        ensures counted { CountsCall self.old.plan self.new.plan }
        ensures cause { HasCause self.old.plan.faults self.new.plan.faults result }
    {
        let due = self.plan.is_due();
        if self.calls.reserve(1).is_err() {
            return Err(self.run_short());
        }
        Ok(due)
    }

    /// Keeps the call that was begun.
    pub fn keep(&mut self, call: Call)
        requires { vec_len self.old.calls < vec_capacity self.old.calls }
        ensures kept { self.new.calls.items ≡ self.old.calls.items ++ call ∷ [] }
        ensures plan { self.new.plan ≡ self.old.plan }
        ensures shortages { self.new.shortages ≡ self.old.shortages }
    {
        let _ = self.calls.push(call);
    }

    /// Keeps a call that asks for the length or the bytes of a file. It fails where the plan says
    /// so, and where there is no room.
    pub fn ask(&mut self, file: File) -> Result<(), Failed>
        ensures recorded { Recorded self.old self.new (Asked file) (Asked file) ⊥ result }
        ensures kept { (self.new.calls.items ≡ self.old.calls.items ++ Asked file ∷ []) ⊎ (self.new.calls.items ≡ self.old.calls.items) }
        ensures counted { CountsCall self.old.plan self.new.plan }
        ensures cause { HasCause self.old.plan.faults self.new.plan.faults result }
    {
        let due = self.begin()?;
        self.keep(Call::Asked { file });
        if due {
            return Err(self.plan.fail());
        }
        Ok(())
    }

    /// Counts a call that found no room.
    pub fn run_short(&mut self) -> Failed
        ensures shortages { Rose self.old.shortages self.new.shortages }
        ensures rose { Rose self.old.plan.faults self.new.plan.faults }
        ensures later { self.old.plan.faults ≤ self.new.plan.faults }
        ensures calls { self.new.calls ≡ self.old.calls }
        ensures number { self.new.plan.calls ≡ self.old.plan.calls }
        ensures list { self.new.plan.failing ≡ self.old.plan.failing }
    {
        self.shortages = self.shortages.saturating_add(1);
        self.plan.fail()
    }
}
