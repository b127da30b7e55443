//! What a command makes of settings and spots. `working` calls it.

ghost use Rattle.std.specs.Prelude.{◌≡◌, ◌<◌, ◌^◌, ◌∷◌, [], Some, None, All, IfOk, IfSome, IsErrOf};
ghost use Rattle.std.specs.List.{AllByRecursion};
ghost use Rattle.ix_coding.specs.Spelling.{IsShort};
ghost use Rattle.ix_items.specs.Spelling.{HasSpelling, IsKept};
ghost use Rattle.ix_items.specs.declared.items.Item.TheVariants as items;
ghost use Rattle.ix_state.specs.Taken.{IsSpot};
ghost use Rattle.ix_model.specs.Step.{with_spot};
ghost use Rattle.ix_model.specs.Said.{spot_item};
ghost use Rattle.ix_apply.specs.Spots.{placed};
ghost use Rattle.ix_apply.specs.Steps.{CanBeside, no_beside};
ghost use Rattle.ix_apply.specs.declared.spots.SpotChange.TheVariants as changes;

use crate::effect::{Beside, StepFault};
use crate::spots::SpotChange;
use ix_base::{NoMemory, Sequence, Spot};
use ix_items::{Item, KeptList, are_kept, copy_settings};
use ix_model::Config;
use ix_state::StoreState;
use std::alloc::Global;

/// What the lengths of texts in the log stay below.
const LONG: usize = 4_294_967_296;

/// The item of settings. It is `Full` where they cannot be written.
fn settings_item(alloc: Global, kept: &KeptList) -> Result<Item, StepFault>
    ensures item { IfOk result (λ item. item ≡ items.Settings kept.now) }
    ensures proper { IfOk result (λ item. HasSpelling item) }
    ensures full { IsErrOf result StepFault.Full → IsShort kept.now → All IsKept kept.now → ⊥ }
{
    if kept.len() >= LONG {
        return Err(StepFault::Full);
    }
    if !are_kept(kept.as_slice()) {
        return Err(StepFault::Full);
    }
    let kept = copy_settings(alloc, kept.as_slice())?;
    Ok(Item::Settings { kept })
}

/// The number, of which it is known then that it has 64 bits.
fn number(offset: u64) -> u64
    ensures same { result ≡ offset }
    ensures range { result < 2 ^ 64 }
{
    offset
}

/// The item of a spot.
fn spot_item(spot: &Spot) -> Result<Item, NoMemory>
    requires { IsSpot spot.now }
    ensures item { IfOk result (λ item. item ≡ items.Spot spot.now) }
    ensures proper { IfOk result (λ item. HasSpelling item) }
{
    let offset = number(spot.offset);
    let path = spot.path.copy()?;
    let head = spot.head.copy()?;
    Ok(Item::Spot {
        spot: Spot { path, head, offset },
    })
}

fn only(alloc: Global, item: Item) -> Result<Sequence<Item>, NoMemory>
    requires { HasSpelling item }
    ensures is { IfOk result (λ list. list ≡ item ∷ []) }
    ensures proper { IfOk result (λ list. AllByRecursion HasSpelling list) }
{
    let mut list = Sequence::new(alloc);
    list.push(item)?;
    Ok(list)
}

/// What the log says of settings. It is `Full` where they cannot be written.
fn settings_items(alloc: Global, kept: &KeptList) -> Result<Sequence<Item>, StepFault>
    ensures is { IfOk result (λ list. list ≡ items.Settings kept.now ∷ []) }
    ensures proper { IfOk result (λ list. AllByRecursion HasSpelling list) }
    ensures full { IsErrOf result StepFault.Full → IsShort kept.now → All IsKept kept.now → ⊥ }
{
    let item = settings_item(alloc, kept)?;
    let items = only(alloc, item)?;
    Ok(items)
}

impl Beside {
    /// Nothing becomes of them.
    pub(crate) fn none(alloc: Global) -> Beside
        ensures { result ≡ no_beside }
    {
        Beside {
            config: None,
            spot: SpotChange::Same,
            items: Sequence::new(alloc),
        }
    }

    /// One spot.
    fn of_spot(alloc: Global, held: &StoreState, spot: Spot) -> Result<Beside, NoMemory>
        requires { IsSpot spot }
        ensures items { IfOk result (λ b. b.items ≡ items.Spot spot ∷ []) }
        ensures config { IfOk result (λ b. b.config ≡ None) }
        ensures spot { IfOk result (λ b. placed b.spot held.now.spots.items ≡ with_spot held.now.spots.items (Some spot)) }
        ensures can { IfOk result (λ b. CanBeside held.now b) }
    {
        let item = spot_item(&spot)?;
        let items = only(alloc, item)?;
        let spot = SpotChange::of(alloc, &held.spots, spot)?;
        Ok(Beside {
            config: None,
            spot,
            items,
        })
    }

    /// A spot, where there is one.
    pub(crate) fn with_spot(
        alloc: Global,
        held: &StoreState,
        spot: Option<Spot>,
    ) -> Result<Beside, NoMemory>
        requires { IfSome spot IsSpot }
        ensures items { IfOk result (λ b. b.items ≡ spot_item spot) }
        ensures config { IfOk result (λ b. b.config ≡ None) }
        ensures spot { IfOk result (λ b. placed b.spot held.now.spots.items ≡ with_spot held.now.spots.items spot) }
        ensures can { IfOk result (λ b. CanBeside held.now b) }
    {
        match spot {
            None => Ok(Beside::none(alloc)),
            Some(spot) => Beside::of_spot(alloc, held, spot),
        }
    }

    /// Other settings.
    pub(crate) fn with_config(alloc: Global, config: Config) -> Result<Beside, StepFault>
        ensures items { IfOk result (λ b. b.items ≡ items.Settings config.kept ∷ []) }
        ensures config { IfOk result (λ b. b.config ≡ Some config) }
        ensures spot { IfOk result (λ b. b.spot ≡ changes.Same) }
        ensures proper { IfOk result (λ b. AllByRecursion HasSpelling b.items) }
        ensures full { IsErrOf result StepFault.Full → IsShort config.kept → All IsKept config.kept → ⊥ }
    {
        match settings_items(alloc, &config.kept) {
            Ok(items) => Ok(Beside {
                config: Some(config),
                spot: SpotChange::Same,
                items,
            }),
            Err(fault) => {
                drop(config);
                Err(fault)
            }
        }
    }
}
