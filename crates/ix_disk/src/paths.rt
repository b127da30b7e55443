//! The paths of the disk of the machine, made without memory.

ghost use Rattle.std.specs.Prelude.{◌≡◌, ◌≤◌, length};
ghost use Rattle.ix_disk.specs.Paths.{folder_path, file_path};

use arrayvec::ArrayString;
use itoa::Buffer;
use ix_base::{Area, File};

/// The path of a file, which has at most 31 bytes.
#[derive(Clone, Copy)]
pub struct FilePath {
    text: ArrayString<31>,
}

/// The file whose lock one program at a time has. It is never removed.
pub const LOCK_PATH: &str = "var/lock";

/// The folder of an area's files.
pub fn folder_of(area: Area) -> &'static str
    ensures path { result.now ≡ folder_path area }
    ensures short { length result.now ≤ 10 }
{
    match area {
        Area::Meta => "var/meta",
        Area::Home => "var/home",
        Area::Cold => "var/cold",
        Area::Frozen => "var/frozen",
        Area::Thawed => "var/thawed",
    }
}

impl FilePath {
    /// The path `var/<area>/<number>`.
    pub fn of(file: File) -> Self
        ensures { result.text.bytes ≡ file_path file }
    {
        let mut text = ArrayString::new();
        text.push_str(folder_of(file.area));
        text.push_str("/");
        text.push_str(Buffer::new().format(file.number));
        FilePath { text }
    }

    /// The path, lent.
    pub fn as_str(&self) -> &str
        ensures { result.now ≡ self.now.text.bytes }
    {
        self.text.as_str()
    }
}
