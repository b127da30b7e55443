//! How a run ends.

ghost use Rattle.std.specs.Prelude.{◌≡◌, ◌≤◌};
ghost use Rattle.indexd_core.specs.Sides.{side};
ghost use Rattle.indexd_core.specs.Texts.{status_code, status_text, Said};

use ix_base::Sink;

/// How a run ended. Its number is the exit status of the program.
#[derive(Clone, Copy, Debug, PartialEq, Eq)]
pub enum Status {
    /// 0: the input was read to its end, and all was written.
    Done,
    /// 1: there was no room in memory. `indexd: want of memory`
    Memory,
    /// 2: the words are no command. `indexd: usage`
    Usage,
    /// 3: a file of settings has a fault. `indexd: configuration: ` and what it is
    Configuration,
    /// 4: reading the input or the tree of files failed. `indexd: input fault`
    Input,
    /// 5: the disk of the store failed. `indexd: disk fault`
    DiskFault,
    /// 6: a file of the store is damaged. `indexd: damaged: ` and its area, its number and the
    /// place
    Damaged,
    /// 7: writing the output failed.
    Output,
    /// 9: the listener failed. `indexd: listener fault`
    ListenerFault,
    /// 10: the stated index is not configured. `indexd: not found: ` and its name
    NotFound,
    /// 11: 256 channels are open, and one more is to be begun. `indexd: too many channels`
    TooManyChannels,
    /// 12: a request was cut, or it is not known where it ends. `indexd: request ` and its number,
    /// ` cannot be read`
    Unreadable,
    /// 13: the input has 2^40 bytes or more, or 2^32 requests were served. `indexd: endless input`
    Endless,
    /// 17: the store, or that of a selftest, would pass the bounds of what it can keep.
    /// `indexd: store full`
    Full,
    /// 18: another program has the store. `indexd: store in use`
    InUse,
}

impl Status {
    /// The exit status of the program.
    pub fn code(self) -> u8
        ensures { result ≡ status_code self }
    {
        match self {
            Status::Done => 0,
            Status::Memory => 1,
            Status::Usage => 2,
            Status::Configuration => 3,
            Status::Input => 4,
            Status::DiskFault => 5,
            Status::Damaged => 6,
            Status::Output => 7,
            Status::ListenerFault => 9,
            Status::NotFound => 10,
            Status::TooManyChannels => 11,
            Status::Unreadable => 12,
            Status::Endless => 13,
            Status::Full => 17,
            Status::InUse => 18,
        }
    }

    /// The line that is written behind the output, with its newline, where it is always the same.
    fn text(self) -> &'static [u8]
        ensures { result.now ≡ status_text self }
    {
        match self {
            Status::Done | Status::Configuration | Status::Output => b"",
            Status::Damaged | Status::NotFound | Status::Unreadable => b"",
            Status::Memory => b"indexd: want of memory\n",
            Status::Usage => b"indexd: usage\n",
            Status::Input => b"indexd: input fault\n",
            Status::DiskFault => b"indexd: disk fault\n",
            Status::ListenerFault => b"indexd: listener fault\n",
            Status::TooManyChannels => b"indexd: too many channels\n",
            Status::Endless => b"indexd: endless input\n",
            Status::Full => b"indexd: store full\n",
            Status::InUse => b"indexd: store in use\n",
        }
    }
}

/// Writes the line of a status, where it is always the same one. Where writing fails the status
/// stays, and a front of the line may stand there.
pub fn say<W: Sink>(status: Status, output: &mut W)
    ensures said { Said (status_text status) (side (W.faults output.old) (W.given output.old))
        (side (W.faults output.new) (W.given output.new)) }
    ensures later { W.faults output.old ≤ W.faults output.new }
{
    let text = status.text();
    if !text.is_empty() {
        let _ = output.put(text);
    }
}
