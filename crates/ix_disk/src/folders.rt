//! The folders of the disk of the machine, and which of them have to be synced.

ghost use Rattle.std.specs.Prelude.{◌<◌};

use crate::machine::{Reason, done, if_there, reason_of};
use crate::paths::folder_of;
use ix_base::Area;
use std::fs::{self, DirBuilder, OpenFile, Permissions};
use std::io::ErrorKind;
use std::os::unix::fs::{DirBuilderExt, PermissionsExt};
use std::rt::Files;

/// Which folders may have names in them that no sync has put on the disk.
#[derive(Drop)]
pub struct Folders {
    areas: [bool; 5],
    /// `var`, where the folders of the areas stand.
    var: bool,
    /// The current folder, where `var` stands.
    current: bool,
}

/// Only the user that the program runs as may look into a folder that it makes.
const FOLDER_MODE: u32 = 0o700;

/// The number of an area.
pub fn number_of(area: Area) -> usize
    ensures { result < 5 }
{
    match area {
        Area::Meta => 0,
        Area::Home => 1,
        Area::Cold => 2,
        Area::Frozen => 3,
        Area::Thawed => 4,
    }
}

/// Makes a folder where it is missing, with the same mode under any mask of the process, and notes
/// that a name has come into the folder above it.
fn make_folder<R: Files>(rt: &R, path: &str, changed: &mut bool) -> Result<(), Reason> {
    let mut how = DirBuilder::new();
    how.mode(FOLDER_MODE);
    match how.create(rt, path) {
        Ok(()) => {
            *changed = true;
            let mode = Permissions::from_mode(FOLDER_MODE);
            done(fs::set_permissions(rt, path, mode))
        }
        Err(fault) if fault.kind() == ErrorKind::AlreadyExists => Ok(()),
        Err(fault) => Err(reason_of(&fault)),
    }
}

/// Syncs what is open. Where that fails, bytes are lost.
pub fn sync_open<H: OpenFile>(open: &H, lost: &mut bool) -> Result<(), Reason> {
    let synced = done(open.sync_all());
    if synced.is_err() {
        *lost = true;
    }
    synced
}

/// Syncs a file.
pub fn sync_path<R: Files>(rt: &R, path: &str, lost: &mut bool) -> Result<(), Reason> {
    let file = done(fs::open(rt, path))?;
    sync_open(&file, lost)
}

/// Syncs a folder, where it is there.
fn sync_folder<R: Files>(rt: &R, path: &str, lost: &mut bool) -> Result<(), Reason> {
    match if_there(fs::open(rt, path))? {
        Some(folder) => sync_open(&folder, lost),
        None => Ok(()),
    }
}

/// Syncs a folder, where names in it changed.
fn settle_folder<R: Files>(
    rt: &R,
    path: &str,
    changed: &mut bool,
    lost: &mut bool,
) -> Result<(), Reason> {
    if *changed {
        sync_folder(rt, path, lost)?;
        *changed = false;
    }
    Ok(())
}

impl Folders {
    /// An earlier run may have left a name in any of them that is not on the disk.
    pub fn new() -> Self {
        Folders {
            areas: [true; 5],
            var: true,
            current: true,
        }
    }

    /// A file of the area is made or removed.
    pub fn change(&mut self, area: Area) {
        self.areas[number_of(area)] = true;
    }

    /// Makes `var` where it is missing.
    pub fn make_var<R: Files>(&mut self, rt: &R) -> Result<(), Reason> {
        make_folder(rt, "var", &mut self.current)
    }

    /// Makes the folder of the area, and `var`, where they are missing.
    pub fn make<R: Files>(&mut self, rt: &R, area: Area) -> Result<(), Reason> {
        self.make_var(rt)?;
        make_folder(rt, folder_of(area), &mut self.var)
    }

    /// Syncs the folder of the area and those above it, where names in them changed.
    pub fn settle<R: Files>(&mut self, rt: &R, area: Area, lost: &mut bool) -> Result<(), Reason> {
        settle_folder(rt, folder_of(area), &mut self.areas[number_of(area)], lost)?;
        settle_folder(rt, "var", &mut self.var, lost)?;
        settle_folder(rt, ".", &mut self.current, lost)
    }
}
