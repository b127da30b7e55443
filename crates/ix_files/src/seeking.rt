//! The files of the inputs are sought in a tree.

ghost use Rattle.std.specs.Prelude.{◌≡◌, ◌++◌, [], ◌∷◌, true, IfOk, IfErr, IfSome, OnOk, unwrap_or};
ghost use Rattle.std.specs.List.{list_any, AllByRecursion};
ghost use Rattle.ix_files.specs.Sought as defs;
ghost use Rattle.ix_fs.specs.Trees.{HasTreeCause};

use crate::paths::{folder_of, has_star, split};
use ix_base::{Bytes, ChannelMeta, Names, NoMemory, Sequence};
use ix_conf::fits_stars;
use ix_fs::{Tree, TreeFault};
use ix_monitor::{Input, Watched};
use std::alloc::Global;

/// The most bytes that the path of a file has. Files with longer ones are passed over.
const MOST: usize = 4096;

fn copy_some(bytes: &Option<Bytes>) -> Result<Option<Bytes>, NoMemory>
    ensures { IfOk result (λ copy. copy ≡ bytes.now) }
{
    match bytes {
        Some(bytes) => Ok(Some(bytes.copy()?)),
        None => Ok(None),
    }
}

/// The source of the events of a file: its path, where the input states none.
fn source_of(alloc: Global, input: &Input, path: &[u8]) -> Result<Bytes, NoMemory>
    ensures { IfOk result (λ source. source ≡ unwrap_or input.now.source path.now) }
{
    match &input.source {
        Some(source) => source.copy(),
        None => Bytes::copy_of(alloc, path),
    }
}

/// A file of an input.
fn watched(alloc: Global, input: &Input, path: &[u8]) -> Result<Watched, NoMemory>
    ensures { IfOk result (λ file. file ≡ defs.watched input.now path.now) }
{
    let meta = ChannelMeta {
        host: input.host.copy()?,
        source: source_of(alloc, input, path)?,
        sourcetype: copy_some(&input.sourcetype)?,
        index: copy_some(&input.index)?,
    };
    Ok(Watched {
        path: Bytes::copy_of(alloc, path)?,
        meta,
        named: !has_star(input.path.as_slice()),
    })
}

/// Whether a path is one of an input's.
fn is_of(alloc: Global, path: &[u8], input: &Input) -> Result<bool, NoMemory>
    ensures { IfOk result (λ is. is ≡ defs.is_of path.now input.now) }
{
    let (front, segment) = split(path);
    let (own_front, own_segment) = split(input.path.as_slice());
    if front != own_front {
        return Ok(false);
    }
    fits_stars(alloc, own_segment, segment)
}

/// Whether a path is one of several inputs'.
fn is_of_any(alloc: Global, path: &[u8], inputs: &[Input]) -> Result<bool, NoMemory>
    ensures { IfOk result (λ is. is ≡ list_any (defs.is_of path.now) inputs.now) }
{
    for input in inputs {
        if is_of(alloc, path, input)? {
            return Ok(true);
        }
    }
    Ok(false)
}

/// An input whose files are sought, and the inputs before it.
#[derive(Clone, Copy)]
struct Seeker<'a> {
    alloc: Global,
    earlier: &'a [Input],
    input: &'a Input,
}

impl Seeker<'_> {
    /// Whether an earlier input has the file at a path, which the tree has.
    fn is_taken<T: Tree>(self, tree: &mut T, path: &[u8]) -> Result<bool, TreeFault>
        ensures taken { IfOk result (λ taken. IfSome (T.files tree.old) (λ all. taken ≡ defs.is_taken all self.entry.earlier.now path.now)) }
        ensures there { IfErr result (λ fault. fault ≡ TreeFault.Missing → ⊥) }
        ensures same { T.files tree.new ≡ T.files tree.old }
        ensures cause { HasTreeCause (T.faults tree.old) (T.faults tree.new) (T.missing tree.old) (T.missing tree.new) result }
    {
        if !is_of_any(self.alloc, path, self.earlier)? {
            return Ok(false);
        }
        match tree.size(path) {
            Ok(_) => Ok(true),
            Err(TreeFault::Missing) => Ok(false),
            Err(fault) => Err(fault),
        }
    }

    /// Adds the file at a path, where it is to be visited for this input.
    fn add_path<T: Tree>(
        self,
        tree: &mut T,
        path: &[u8],
        files: &mut Sequence<Watched>,
    ) -> Result<(), TreeFault>
        requires { defs.IsPathOf self.input.now path.now }
        ensures added { OnOk result (IfSome (T.files tree.old) (λ all. files.new ≡ files.old
            ++ defs.sought_at all self.entry.earlier.now self.entry.input.now (path.now ∷ []))) }
        ensures own { OnOk result (defs.Adds self.entry.input.now files.old files.new) }
        ensures there { IfErr result (λ fault. fault ≡ TreeFault.Missing → ⊥) }
        ensures same { T.files tree.new ≡ T.files tree.old }
        ensures cause { HasTreeCause (T.faults tree.old) (T.faults tree.new) (T.missing tree.old) (T.missing tree.new) result }
    {
        if path.len() > MOST || self.is_taken(tree, path)? {
            return Ok(());
        }
        files.push(watched(self.alloc, self.input, path)?)?;
        Ok(())
    }

    /// Adds the file of a name in the folder of the input, where it fits and is to be visited.
    fn add_name<T: Tree>(
        self,
        tree: &mut T,
        name: &[u8],
        files: &mut Sequence<Watched>,
    ) -> Result<(), TreeFault>
        requires { defs.has_star self.input.now.path ≡ true }
        ensures added { OnOk result (IfSome (T.files tree.old) (λ all. files.new ≡ files.old
            ++ defs.sought_at all self.entry.earlier.now self.entry.input.now (defs.fitting_of self.entry.input.now.path (name.now ∷ [])))) }
        ensures own { OnOk result (defs.Adds self.entry.input.now files.old files.new) }
        ensures there { IfErr result (λ fault. fault ≡ TreeFault.Missing → ⊥) }
        ensures same { T.files tree.new ≡ T.files tree.old }
        ensures cause { HasTreeCause (T.faults tree.old) (T.faults tree.new) (T.missing tree.old) (T.missing tree.new) result }
    {
        let (front, segment) = split(self.input.path.as_slice());
        if !fits_stars(self.alloc, segment, name)? {
            return Ok(());
        }
        let mut path = Bytes::copy_of(self.alloc, front)?;
        path.extend(name)?;
        self.add_path(tree, path.as_slice(), files)
    }

    /// Adds the files of names in the folder of the input.
    fn add_names<T: Tree>(
        self,
        tree: &mut T,
        names: &[Bytes],
        files: &mut Sequence<Watched>,
    ) -> Result<(), TreeFault>
        requires { defs.has_star self.input.now.path ≡ true }
        ensures added { OnOk result (IfSome (T.files tree.old) (λ all. files.new ≡ files.old
            ++ defs.sought_at all self.entry.earlier.now self.entry.input.now (defs.fitting_of self.entry.input.now.path names.now))) }
        ensures own { OnOk result (defs.Adds self.entry.input.now files.old files.new) }
        ensures there { IfErr result (λ fault. fault ≡ TreeFault.Missing → ⊥) }
        ensures same { T.files tree.new ≡ T.files tree.old }
        ensures cause { HasTreeCause (T.faults tree.old) (T.faults tree.new) (T.missing tree.old) (T.missing tree.new) result }
    {
        for name in names {
            self.add_name(tree, name.as_slice(), files)?;
        }
        Ok(())
    }

    /// Adds the files of an input whose path has a `*`.
    fn add_folder<T: Tree>(
        self,
        tree: &mut T,
        files: &mut Sequence<Watched>,
    ) -> Result<(), TreeFault>
        requires { defs.has_star self.input.now.path ≡ true }
        ensures added { OnOk result (IfSome (T.files tree.old) (λ all. files.new ≡ files.old
            ++ defs.sought_at all self.entry.earlier.now self.entry.input.now (defs.fitting all self.entry.input.now.path))) }
        ensures own { OnOk result (defs.Adds self.entry.input.now files.old files.new) }
        ensures there { IfErr result (λ fault. fault ≡ TreeFault.Missing → ⊥) }
        ensures same { T.files tree.new ≡ T.files tree.old }
        ensures cause { HasTreeCause (T.faults tree.old) (T.faults tree.new) (T.missing tree.old) (T.missing tree.new) result }
    {
        let folder = folder_of(self.input.path.as_slice());
        match tree.list(self.alloc, folder) {
            Ok(names) => self.add_names(tree, names.as_slice(), files),
            Err(TreeFault::Missing) => Ok(()),
            Err(fault) => Err(fault),
        }
    }

    /// Adds the files of the input.
    fn add_files<T: Tree>(
        self,
        tree: &mut T,
        files: &mut Sequence<Watched>,
    ) -> Result<(), TreeFault>
        ensures added { OnOk result (IfSome (T.files tree.old) (λ all. files.new ≡ files.old
            ++ defs.sought_in all self.entry.earlier.now self.entry.input.now)) }
        ensures own { OnOk result (defs.Adds self.entry.input.now files.old files.new) }
        ensures there { IfErr result (λ fault. fault ≡ TreeFault.Missing → ⊥) }
        ensures same { T.files tree.new ≡ T.files tree.old }
        ensures cause { HasTreeCause (T.faults tree.old) (T.faults tree.new) (T.missing tree.old) (T.missing tree.new) result }
    {
        let path = self.input.path.as_slice();
        if has_star(path) {
            self.add_folder(tree, files)
        } else {
            self.add_path(tree, path, files)
        }
    }
}

/// The files that inputs have watched, in the order of a pass: input by input, and those of an
/// input in the order of the bytes of their names. A file that the tree has and that several inputs
/// have is the first one's alone. A path of more than 4,096 bytes is passed over. The path of an
/// input without a `*` is there also where the tree has no such file, and the folder of one with a
/// `*` may be missing.
pub fn watched_files<T: Tree>(
    alloc: Global,
    tree: &mut T,
    inputs: &[Input],
) -> Result<Sequence<Watched>, TreeFault>
    ensures files { IfOk result (λ files. IfSome (T.files tree.old) (λ all. files ≡ defs.sought all inputs.now)) }
    // Whatever the tree tells, each is of a path that an input gives, with what that input states.
    ensures own { IfOk result (λ files. AllByRecursion (defs.IsFileOf inputs.now) files) }
    // What is missing is no fault.
    ensures there { IfErr result (λ fault. fault ≡ TreeFault.Missing → ⊥) }
    ensures same { T.files tree.new ≡ T.files tree.old }
    ensures cause { HasTreeCause (T.faults tree.old) (T.faults tree.new) (T.missing tree.old) (T.missing tree.new) result }
{
    let mut files = Sequence::new(alloc);
    for at in 0..inputs.len() {
        let seeker = Seeker {
            alloc,
            earlier: &inputs[..at],
            input: &inputs[at],
        };
        seeker.add_files(tree, &mut files)?;
    }
    Ok(files)
}
