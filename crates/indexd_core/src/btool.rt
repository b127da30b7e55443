//! `btool`: the settings of all layers of a file.

ghost use Rattle.std.specs.Prelude.{◌≡◌, ◌≢◌, ◌≤◌, ℕ, List, IfOk, IfErr};
ghost use Rattle.ix_base.specs.Faults.{HasCause, Rose};
ghost use Rattle.ix_base.specs.Told.{HasWritten, HasBegun};
ghost use Rattle.indexd_settings.specs.Layers.{settings, refusal_text, LayerStops};
ghost use Rattle.indexd_core.specs.Btool.{Lists, HasListing, RefusalSaid, Tells};
ghost use Rattle.indexd_core.specs.Sides.{side};
ghost use Rattle.indexd_core.specs.Texts.{Said, status_text};

use crate::status::{Status, say};
use indexd_settings::{LayerFault, LayerStop, SettingsFile};
use ix_base::{Bytes, NoMemory, Sink};
use ix_conf::{Layers, merge};
use ix_fs::Tree;
use std::alloc::Global;

/// The listing of layers.
fn list(alloc: Global, layers: &Layers) -> Result<Bytes, NoMemory>
    ensures { IfOk result (λ text. Lists layers.now text) }
{
    let merged = merge(alloc, layers)?;
    merged.list(alloc)
}

/// Reads the layers of a file, and lists them.
fn list_file<T: Tree>(alloc: Global, file: SettingsFile, tree: &mut T) -> Result<Bytes, LayerStop>
    ensures listing { IfOk result (λ text. HasListing file (T.files tree.old) text) }
    ensures stopped { IfErr result (λ stop. LayerStops stop (T.faults tree.old) (T.faults tree.new) (T.files tree.old)
        (λ all. settings all file)) }
    ensures same { T.files tree.new ≡ T.files tree.old }
    ensures later { T.faults tree.old ≤ T.faults tree.new }
    ensures later_missing { T.missing tree.old ≤ T.missing tree.new }
{
    let layers = file.read_all(alloc, tree)?;
    let text = list(alloc, &layers)?;
    Ok(text)
}

/// Writes the line of a fault. Where that fails the status stays.
fn say_refusal<W: Sink>(
    alloc: Global,
    file: SettingsFile,
    refusal: &LayerFault,
    output: &mut W,
) -> Status
    ensures said { RefusalSaid result file refusal.now
        (side (W.faults output.old) (W.given output.old)) (side (W.faults output.new) (W.given output.new)) }
    ensures later { W.faults output.old ≤ W.faults output.new }
{
    let Ok(text) = refusal.text(alloc, file) else {
        say(Status::Memory, output);
        return Status::Memory;
    };
    let _ = output.put(text.as_slice());
    Status::Configuration
}

/// Writes the listing of a file, or the line of why there is none.
pub fn btool<T: Tree, W: Sink>(
    alloc: Global,
    file: SettingsFile,
    tree: &mut T,
    output: &mut W,
) -> Status
    ensures tells { Tells result file (T.files tree.old) (T.faults tree.old) (T.faults tree.new)
        (side (W.faults output.old) (W.given output.old)) (side (W.faults output.new) (W.given output.new)) }
    ensures same { T.files tree.new ≡ T.files tree.old }
    ensures read_later { T.faults tree.old ≤ T.faults tree.new }
    ensures missing_later { T.missing tree.old ≤ T.missing tree.new }
    ensures written_later { W.faults output.old ≤ W.faults output.new }
{
    match list_file(alloc, file, tree) {
        Ok(text) => match output.put(text.as_slice()) {
            Ok(()) => Status::Done,
            Err(_) => Status::Output,
        },
        Err(LayerStop::Memory) => {
            say(Status::Memory, output);
            Status::Memory
        }
        Err(LayerStop::Input) => {
            say(Status::Input, output);
            Status::Input
        }
        Err(LayerStop::Refused(refusal)) => say_refusal(alloc, file, &refusal, output),
    }
}
