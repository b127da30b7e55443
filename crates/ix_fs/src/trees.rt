//! Files under paths.

ghost use Rattle.std.specs.Prelude.{◌≡◌, ◌≤◌, ◌<◌, ◌++◌, ℕ, List, [], Option, Some, None, Ok, length, take, drop, IfOk, OnOk, IfSome};
ghost use Rattle.std.specs.Prelude.{IsErrOf, IsTrue, ◌↔◌};
ghost use Rattle.std.specs.Option.{option_map, option_copied};
ghost use Rattle.ix_base.specs.Faults.{Rose};
ghost use Rattle.ix_base.specs.Plans.{is_due, CountsCall};
ghost use Rattle.ix_fs.specs.declared.trees.TreeFault.TheVariants.{Failed, Missing};
ghost use Rattle.ix_fs.specs.Trees.{bytes_at, names_in, name_in, behind, front_of, first_segment, with_name, with_option, in_order};
ghost use Rattle.ix_fs.specs.Trees.{IsPlaceOf, NamesInOrder, HasSize, ReadsAt, GivesAt, HasTreeCause};

use ix_base::{Bytes, FailPlan, Names, NoMemory, Sequence};
use std::alloc::Global;
use std::cmp::Ordering;
use std::fs::{self, File};
use std::io::{self, ErrorKind};
use std::os::unix::fs::FileExt;
use std::rt::Files;
use std::str;
use thiserror::Error;

/// Why a call of a tree was refused.
#[derive(Clone, Copy, Debug, PartialEq, Eq, Error)]
pub enum TreeFault {
    /// The tree failed.
    #[error("the tree of files failed")]
    Failed,
    /// There is no such file, or no such folder.
    #[error("there is no such file or folder")]
    Missing,
    /// There was no room in memory.
    #[error("there was no room in memory")]
    NoMemory,
}

impl From<NoMemory> for TreeFault {
    ghost use Rattle.ix_fs.specs.declared.trees.TreeFault.TheVariants.{NoMemory as no_memory};

    ghost from_gives = { λ _ fault. fault ≡ no_memory };

    fn from(_: NoMemory) -> TreeFault {
        TreeFault::NoMemory
    }
}

/// A file of a tree in memory.
pub struct TreeFile {
    /// Its path: names with `/` between.
    pub path: Bytes,
    pub bytes: Bytes,
}

/// It is written out, so that each place where one is let go is a call of it, which is proved once.
impl Drop for TreeFile {
    fn drop(self) {
        let TreeFile { path: _, bytes: _ } = self;
    }
}

/// Files, of which the first one at a path counts.
pub type TreeFileList = Sequence<TreeFile>;

/// Files under paths, in folders. No call changes it.
pub trait Tree {
    ghost use Rattle.ix_base.specs.Plans.{is_due, CountsCall};
    ghost use Rattle.ix_fs.specs.declared.trees.TreeFault.TheVariants.{Failed, Missing};
    ghost use Rattle.ix_fs.specs.Trees.{bytes_at, names_in, HasSize, ReadsAt, HasTreeCause};
    ghost use Rattle.ix_fs.specs.declared.trees.TreeFile.{TreeFile};
    ghost use Rattle.ix_fs.specs.declared.trees.TreeFault.TheVariants.{Missing};

    /// The files, where the tree knows them.
    ghost files: { Self → Option (List TreeFile) };

    /// How often it has failed.
    ghost faults: { Self → ℕ };

    /// How often it has answered that there is no such file or folder.
    ghost missing: { Self → ℕ };

    /// The names that stand directly in a folder, in ASCII order, each once. `Missing` where no
    /// file stands below it.
    fn list(&mut self, alloc: Global, path: &[u8]) -> Result<Names, TreeFault>
        ensures names { IfOk result (λ names. IfSome (files self.old) (λ all. (names ≡ names_in all path.now) × (0 < length names))) }
        ensures absent { IsErrOf result Missing → IfSome (files self.old) (λ all. names_in all path.now ≡ []) }
        ensures same { files self.new ≡ files self.old }
        ensures cause { HasTreeCause (faults self.old) (faults self.new) (missing self.old) (missing self.new) result };

    /// How many bytes a file has. `Missing` where there is no such file.
    fn size(&mut self, path: &[u8]) -> Result<u64, TreeFault>
        ensures size { IfOk result (λ n. IfSome (files self.old) (λ all. HasSize (bytes_at all path.now) n)) }
        ensures absent { IsErrOf result Missing → IfSome (files self.old) (λ all. bytes_at all path.now ≡ None) }
        ensures same { files self.new ≡ files self.old }
        ensures cause { HasTreeCause (faults self.old) (faults self.new) (missing self.old) (missing self.new) result };

    /// Reads bytes of a file from a place on into the front of the buffer, one at least where the
    /// buffer is not empty and the file goes on there, and answers how many. `Missing` where there
    /// is no such file.
    fn read(&mut self, path: &[u8], at: u64, buf: &mut [u8]) -> Result<usize, TreeFault>
        ensures count { IfOk result (λ n. n ≤ length buf.old) }
        ensures bytes { IfOk result (λ n. IfSome (files self.old) (λ all. ReadsAt (bytes_at all path.now) at n buf.new)) }
        ensures absent { IsErrOf result Missing → IfSome (files self.old) (λ all. bytes_at all path.now ≡ None) }
        ensures same { files self.new ≡ files self.old }
        ensures cause { HasTreeCause (faults self.old) (faults self.new) (missing self.old) (missing self.new) result };
}

/// A tree in memory.
pub struct MemTree {
    files: TreeFileList,
    /// Which calls are to fail.
    pub plan: FailPlan,
    /// How often it has answered `Missing`. It stands at 2^64 - 1.
    pub missing: u64,
}

/// It is written out, so that each place where one is let go is a call of it, which is proved once.
impl Drop for MemTree {
    fn drop(self) {
        let MemTree {
            files: _,
            plan: _,
            missing: _,
        } = self;
    }
}

impl MemTree {
    /// The tree of these files, whose calls fail by the plan.
    pub fn new(files: TreeFileList, plan: FailPlan) -> Self
        ensures files { ⟦<MemTree as Tree>⟧.files result ≡ Some files }
        ensures faults { ⟦<MemTree as Tree>⟧.faults result ≡ plan.faults }
        ensures missing { ⟦<MemTree as Tree>⟧.missing result ≡ 0 }
        ensures plan { result.plan ≡ plan }
    {
        MemTree {
            files,
            plan,
            missing: 0,
        }
    }

    fn fail(&mut self) -> TreeFault
        ensures rose { Rose self.old.plan.faults self.new.plan.faults }
        ensures later { self.old.plan.faults ≤ self.new.plan.faults }
        ensures missing { self.new.missing ≡ self.old.missing }
        ensures files { self.new.files ≡ self.old.files }
        ensures calls { self.new.plan.calls ≡ self.old.plan.calls }
        ensures failing { self.new.plan.failing ≡ self.old.plan.failing }
        ensures failed { result ≡ TreeFault.Failed }
    {
        let _ = self.plan.fail();
        TreeFault::Failed
    }

    fn miss(&mut self) -> TreeFault
        ensures rose { Rose self.old.missing self.new.missing }
        ensures later { self.old.missing ≤ self.new.missing }
        ensures plan { self.new.plan ≡ self.old.plan }
        ensures files { self.new.files ≡ self.old.files }
        ensures missing { result ≡ TreeFault.Missing }
    {
        self.missing = self.missing.saturating_add(1);
        TreeFault::Missing
    }
}

/// What the paths of the files below a folder begin with.
fn front_of(alloc: Global, folder: &[u8]) -> Result<Bytes, NoMemory>
    ensures { IfOk result (λ front. front ≡ front_of folder.now) }
{
    let mut front = Bytes::copy_of(alloc, folder)?;
    if !folder.is_empty() {
        front.push(b'/')?;
    }
    Ok(front)
}

/// What stands in a path behind its first bytes.
fn behind<'a>(front: &[u8], path: &'a [u8]) -> Option<&'a [u8]>
    ensures { option_copied result ≡ behind front.now path.now }
{
    if path.len() >= front.len() && path[..front.len()] == front[..] {
        Some(&path[front.len()..])
    } else {
        None
    }
}

/// The bytes before the first slash.
fn first_segment(path: &[u8]) -> &[u8]
    ensures { result.now ≡ first_segment path.now }
{
    let mut end = 0;
    while end < path.len() && path[end] != b'/' {
        end += 1;
    }
    &path[..end]
}

/// Where a name belongs among names in order; `None` where it stands there.
fn place_of(names: &[Bytes], name: &[u8]) -> Option<usize>
    ensures { IsPlaceOf result name.now names.now }
{
    for (at, other) in names.iter().enumerate() {
        match name.cmp(&other.as_slice()) {
            Ordering::Less => return Some(at),
            Ordering::Equal => return None,
            Ordering::Greater => {}
        }
    }
    Some(names.len())
}

/// Adds a name where it belongs, if it does not stand there.
fn add_name(alloc: Global, names: &mut Vec<Bytes>, name: &[u8]) -> Result<(), NoMemory>
    ensures { OnOk result (names.new.items ≡ with_name name.now names.old.items) }
{
    let Some(at) = place_of(names, name) else {
        return Ok(());
    };
    let name = Bytes::copy_of(alloc, name)?;
    names.insert(at, name)?;
    Ok(())
}

/// Adds the name that stands directly in the folder whose paths begin so, of a file below it.
fn add_file(
    alloc: Global,
    names: &mut Vec<Bytes>,
    front: &[u8],
    path: &[u8],
) -> Result<(), NoMemory>
    ensures { OnOk result (names.new.items ≡ with_option (option_map first_segment (behind front.now path.now)) names.old.items) }
{
    match behind(front, path) {
        Some(rest) => add_name(alloc, names, first_segment(rest)),
        None => Ok(()),
    }
}

/// The names that stand directly in a folder, in order.
fn names_in(alloc: Global, files: &[TreeFile], folder: &[u8]) -> Result<Names, NoMemory>
    ensures { IfOk result (λ names. names ≡ names_in files.now folder.now) }
{
    let front = front_of(alloc, folder)?;
    let mut names = Vec::new(alloc);
    let mut at = files.len();
    while at > 0 {
        at -= 1;
        add_file(
            alloc,
            &mut names,
            front.as_slice(),
            files[at].path.as_slice(),
        )?;
    }
    Ok(Names::from_vec(names))
}

/// A law of the names in a folder, as `Tree::list` tells them: each comes before the next one in
/// ASCII order, and they are exactly the names that stand directly in the folder, of files and of
/// folders.
pub fn names_are_in_order()
    ensures { NamesInOrder }
{}

/// The bytes of the file at a path.
fn bytes_at<'a>(files: &'a [TreeFile], path: &[u8]) -> Option<&'a [u8]>
    ensures { option_copied result ≡ bytes_at files.now path.now }
{
    for file in files {
        if file.path.as_slice() == path {
            return Some(file.bytes.as_slice());
        }
    }
    None
}

/// Copies bytes from a place on into the front of a buffer.
fn copy_from(bytes: &[u8], at: u64, buf: &mut [u8]) -> usize
    ensures given { GivesAt bytes.now at result buf.new }
    ensures room { length buf.new ≡ length buf.old }
{
    let at = at.min(bytes.len() as u64) as usize;
    let n = (bytes.len() - at).min(buf.len());
    buf[..n].copy_from_slice(&bytes[at..at + n]);
    n
}

impl Tree for MemTree {
    ghost files = { λ t. Some t.files };

    ghost faults = { λ t. t.plan.faults };

    ghost missing = { λ t. t.missing };

    /// It answers `Failed` exactly where the plan has this call due, as each call here.
    fn list(&mut self, alloc: Global, path: &[u8]) -> Result<Names, TreeFault>
        ensures names { IfOk result (λ names. IfSome (Some self.old.files) (λ all. (names ≡ names_in all path.now) × (0 < length names))) }
        ensures absent { IsErrOf result Missing → IfSome (Some self.old.files) (λ all. names_in all path.now ≡ []) }
        ensures same { Some self.new.files ≡ Some self.old.files }
        ensures cause { HasTreeCause self.old.plan.faults self.new.plan.faults self.old.missing self.new.missing result }
        ensures due { IsErrOf result Failed ↔ IsTrue (is_due self.old.plan) }
        ensures counted { CountsCall self.old.plan self.new.plan }
    {
        if self.plan.is_due() {
            return Err(self.fail());
        }
        let names = names_in(alloc, self.files.as_slice(), path)?;
        if names.is_empty() {
            return Err(self.miss());
        }
        Ok(names)
    }

    fn size(&mut self, path: &[u8]) -> Result<u64, TreeFault>
        ensures size { IfOk result (λ n. IfSome (Some self.old.files) (λ all. HasSize (bytes_at all path.now) n)) }
        ensures absent { IsErrOf result Missing → IfSome (Some self.old.files) (λ all. bytes_at all path.now ≡ None) }
        ensures same { Some self.new.files ≡ Some self.old.files }
        ensures cause { HasTreeCause self.old.plan.faults self.new.plan.faults self.old.missing self.new.missing result }
        ensures due { IsErrOf result Failed ↔ IsTrue (is_due self.old.plan) }
        ensures counted { CountsCall self.old.plan self.new.plan }
    {
        if self.plan.is_due() {
            return Err(self.fail());
        }
        match bytes_at(self.files.as_slice(), path) {
            Some(bytes) => Ok(bytes.len() as u64),
            None => Err(self.miss()),
        }
    }

    fn read(&mut self, path: &[u8], at: u64, buf: &mut [u8]) -> Result<usize, TreeFault>
        ensures count { IfOk result (λ n. n ≤ length buf.old) }
        ensures bytes { IfOk result (λ n. IfSome (Some self.old.files) (λ all. ReadsAt (bytes_at all path.now) at n buf.new)) }
        ensures absent { IsErrOf result Missing → IfSome (Some self.old.files) (λ all. bytes_at all path.now ≡ None) }
        ensures same { Some self.new.files ≡ Some self.old.files }
        ensures cause { HasTreeCause self.old.plan.faults self.new.plan.faults self.old.missing self.new.missing result }
        ensures due { IsErrOf result Failed ↔ IsTrue (is_due self.old.plan) }
        ensures counted { CountsCall self.old.plan self.new.plan }
    {
        if self.plan.is_due() {
            return Err(self.fail());
        }
        match bytes_at(self.files.as_slice(), path) {
            Some(bytes) => Ok(copy_from(bytes, at, buf)),
            None => Err(self.miss()),
        }
    }
}

/// The files below the current folder, by a runtime. It tells nothing of them.
#[derive(Drop)]
pub struct HostTree<R> {
    rt: R,
    faults: u64,
    missing: u64,
    /// The path that the first fault was about, and the system's reason.
    first_fault: Option<String>,
    /// What the paths begin with that are not passed over; `None` where none are.
    strict: Option<&'static [u8]>,
    /// What was passed over.
    passed_over: Vec<String>,
}

/// The system's reason without the number that stands behind it.
fn without_number(text: &str) -> &str {
    match text.split_once(" (os error ") {
        Some((reason, _)) => reason,
        None => text,
    }
}

/// What is told of a path, with `: ` between.
fn told(alloc: Global, path: &[u8], reason: &str) -> Result<String, NoMemory> {
    let path = str::from_utf8(path).unwrap_or("a path that is not UTF-8");
    Ok(format!(in alloc; "{path}: {reason}")?)
}

/// What is told of a fault: the path, and the reason without its number.
fn text_of(alloc: Global, path: &[u8], fault: &io::Error) -> Result<String, NoMemory> {
    if is_unfit(fault) {
        return told(alloc, path, "not a plain file");
    }
    let text = format!(in alloc; "{fault}")?;
    told(alloc, path, without_number(text.as_str()))
}

impl<R: Files + AllocGlobal + Drop> HostTree<R> {
    /// The tree of the files that this runtime reaches.
    pub fn new(rt: R) -> Self
        ensures faults { result.faults ≡ 0 }
        ensures missing { result.missing ≡ 0 }
    {
        let passed_over = Vec::new(rt.alloc());
        HostTree {
            rt,
            faults: 0,
            missing: 0,
            first_fault: None,
            strict: None,
            passed_over,
        }
    }

    /// The tree of the files that this runtime reaches. What is there and cannot be read, as a file
    /// that others may not see or a folder in the place of a file, is passed over as if it were not
    /// there, and kept to be told; but below paths that begin so it is a fault, as it is in each
    /// tree that is made by `new`. An entry whose name is no UTF-8 is passed over by each tree, and
    /// kept to be told by this one, but below such paths.
    pub fn passing_over(rt: R, but: &'static [u8]) -> Self
        ensures faults { result.faults ≡ 0 }
        ensures missing { result.missing ≡ 0 }
    {
        let mut tree = HostTree::new(rt);
        tree.strict = Some(but);
        tree
    }

    /// What failed first, where something failed: the path and the system's reason, with `: `
    /// between.
    pub fn first_fault(&self) -> Option<&str> {
        match &self.first_fault {
            Some(text) => Some(text.as_str()),
            None => None,
        }
    }

    /// What was passed over, one behind the other: paths and reasons, with `: ` between. Where
    /// there was no room for one, it is not told.
    pub fn passed_over(&self) -> &[String] {
        self.passed_over.as_slice()
    }

    /// Keeps what is told of a fault, if it is the first one.
    fn keep(&mut self, path: &[u8], fault: &io::Error)
        ensures faults { self.new.faults ≡ self.old.faults }
        ensures missing { self.new.missing ≡ self.old.missing }
    {
        if self.first_fault.is_none() {
            self.first_fault = text_of(self.rt.alloc(), path, fault).ok();
        }
    }

    /// Keeps what was passed over.
    fn pass_over(&mut self, text: Result<String, NoMemory>)
        ensures faults { self.new.faults ≡ self.old.faults }
        ensures missing { self.new.missing ≡ self.old.missing }
    {
        if let Ok(text) = text {
            let _ = self.passed_over.push(text);
        }
    }

    /// Whether what cannot be read at this path is passed over.
    fn passes(&self, path: &[u8]) -> bool {
        match self.strict {
            Some(front) => !path.starts_with(front),
            None => false,
        }
    }

    /// What a call on a path answers that came to this fault. One that is passed over is kept.
    fn answer(&mut self, path: &[u8], fault: &io::Error) -> TreeFault
        ensures faults { self.new.faults ≡ self.old.faults }
        ensures missing { self.new.missing ≡ self.old.missing }
    {
        let answer = fault_of(fault);
        let is_there = answer == TreeFault::Failed || is_unfit(fault);
        if is_there && self.passes(path) {
            let text = text_of(self.rt.alloc(), path, fault);
            self.pass_over(text);
            return TreeFault::Missing;
        }
        answer
    }

    /// Counts what a call on a path has come to, and answers it.
    fn count<T: Drop>(&mut self, path: &[u8], found: io::Result<T>) -> Result<T, TreeFault>
        ensures found { IfOk result (λ it. found ≡ Ok it) }
        ensures cause { HasTreeCause self.old.faults self.new.faults self.old.missing self.new.missing result }
    {
        let fault = match found {
            Ok(it) => return Ok(it),
            Err(fault) => fault,
        };
        let answer = self.answer(path, &fault);
        match answer {
            TreeFault::Failed => {
                self.keep(path, &fault);
                self.faults = self.faults.saturating_add(1);
            }
            TreeFault::Missing => self.missing = self.missing.saturating_add(1),
            TreeFault::NoMemory => {}
        }
        Err(answer)
    }
}

/// Why a call of the system was refused.
fn fault_of(fault: &io::Error) -> TreeFault {
    match fault.kind() {
        ErrorKind::NotFound | ErrorKind::NotADirectory => TreeFault::Missing,
        ErrorKind::OutOfMemory => TreeFault::NoMemory,
        _ => TreeFault::Failed,
    }
}

/// Whether something is there that is no plain file. The system has no number for that.
fn is_unfit(fault: &io::Error) -> bool {
    fault.kind() == ErrorKind::NotFound && fault.raw_os_error().is_none()
}

/// A path as the system takes it. One that is not UTF-8 has no file that could be named.
fn path_text(path: &[u8]) -> io::Result<&str> {
    match str::from_utf8(path) {
        Ok("") => Ok("."),
        Ok(text) => Ok(text),
        Err(_) => Err(io::Error::from(ErrorKind::InvalidInput)),
    }
}

/// How many bytes a plain file has.
fn size_of<R: Files>(rt: &R, path: &[u8]) -> io::Result<u64> {
    let found = fs::metadata(rt, path_text(path)?)?;
    if found.is_file() {
        Ok(found.len())
    } else {
        Err(io::Error::from(ErrorKind::NotFound))
    }
}

/// Reads bytes of an open file from a place on.
fn read_open(file: &File, at: u64, buf: &mut [u8]) -> io::Result<usize>
    ensures { IfOk result (λ n. n ≤ length buf.old) }
{
    // No file goes on so far behind.
    if at > i64::MAX as u64 {
        return Ok(0);
    }
    for _ in 0..u64::MAX {
        match file.read_at(buf, at) {
            Ok(count) => return Ok(count),
            Err(fault) if fault.kind() == ErrorKind::Interrupted => {}
            Err(fault) => return Err(fault),
        }
    }
    Err(io::Error::from(ErrorKind::Interrupted))
}

/// Reads bytes of a plain file from a place on.
fn read_file<R: Files<File = File>>(
    rt: &R,
    path: &[u8],
    at: u64,
    buf: &mut [u8],
) -> io::Result<usize>
    ensures { IfOk result (λ n. n ≤ length buf.old) }
{
    // Asked before the file is opened, since opening a pipe may wait.
    size_of(rt, path)?;
    let file = File::open(rt, path_text(path)?)?;
    read_open(&file, at, buf)
}

/// The names, in order.
fn sorted(alloc: Global, mut texts: Vec<String>) -> io::Result<Names> {
    texts.sort()?;
    let mut names = Names::new(alloc);
    for text in texts {
        if names.push(Bytes::from_vec(text.into_bytes())).is_err() {
            return Err(io::Error::from(ErrorKind::OutOfMemory));
        }
    }
    Ok(names)
}

/// Adds the name of an entry of a folder.
fn keep_name(alloc: Global, name: &str, texts: &mut Vec<String>) -> io::Result<()> {
    let text = String::from_str(alloc, name)?;
    texts.push(text)?;
    Ok(())
}

/// Whether a folder has an entry whose name is no UTF-8. The system has no number for that.
fn is_unnamed(fault: &io::Error) -> bool {
    fault.kind() == ErrorKind::InvalidFilename && fault.raw_os_error().is_none()
}

/// The names in a folder, in order. An entry whose name is not UTF-8 is passed over, and counted.
fn read_names<R: Files + AllocGlobal + Clone + Drop>(
    rt: &R,
    alloc: Global,
    path: &[u8],
    unnamed: &mut u64,
) -> io::Result<Names> {
    let mut texts = Vec::new(alloc);
    for entry in fs::read_dir(rt, path_text(path)?)? {
        match entry {
            Ok(entry) => keep_name(alloc, entry.file_name(), &mut texts)?,
            Err(fault) if is_unnamed(&fault) => *unnamed = unnamed.saturating_add(1),
            Err(fault) => return Err(fault),
        }
    }
    sorted(alloc, texts)
}

/// What is told of a folder with names that are not UTF-8.
fn unnamed_text(alloc: Global, path: &[u8], unnamed: u64) -> Result<String, NoMemory> {
    let reason = format!(in alloc; "names that are not UTF-8: {unnamed}")?;
    told(alloc, path, reason.as_str())
}

impl<R: Files<File = File> + AllocGlobal + Clone + Drop> Tree for HostTree<R> {
    ghost files = { λ t. None };

    ghost faults = { λ t. t.faults };

    ghost missing = { λ t. t.missing };

    fn list(&mut self, alloc: Global, path: &[u8]) -> Result<Names, TreeFault> {
        let mut unnamed = 0;
        let found = read_names(&self.rt, alloc, path, &mut unnamed);
        if unnamed > 0 && self.passes(path) {
            self.pass_over(unnamed_text(alloc, path, unnamed));
        }
        self.count(path, found)
    }

    fn size(&mut self, path: &[u8]) -> Result<u64, TreeFault> {
        let found = size_of(&self.rt, path);
        self.count(path, found)
    }

    fn read(&mut self, path: &[u8], at: u64, buf: &mut [u8]) -> Result<usize, TreeFault> {
        let found = read_file(&self.rt, path, at, buf);
        self.count(path, found)
    }
}
