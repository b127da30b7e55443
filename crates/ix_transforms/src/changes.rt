//! What an event comes to at index time. A channel makes a changer for the events of a block.

ghost use Rattle.std.specs.Prelude.{◌≡◌, All, IfOk};
ghost use Rattle.ix_conf_values.specs.Seds.{IsApplicable};
ghost use Rattle.ix_conf_values.specs.Transforms.{HasDestination};
ghost use Rattle.ix_transforms.specs.Changes.{changed, start, outcome};
ghost use Rattle.ix_transforms.specs.Sizes.{HasSizes, HasMoments};

use crate::queues::{Queue, Queued};
use crate::seds::{PreparedSeds, change_all, prepare_seds};
use crate::transforms::{PreparedTransforms, prepare_transforms, transform_all};
use ix_base::{Event, NoMemory, Routed};
use ix_conf_values::{SedList, TransformList};
use std::alloc::Global;
use std::marker::Model;

/// The changes of a channel, made to many events. Each pattern is written out once. Contracts see
/// the changes.
pub struct Changer<'a> {
    seds: PreparedSeds<'a>,
    transforms: PreparedTransforms<'a>,
}

/// It is written out, so that each place where one is let go is a call of it, which is proved once.
impl Drop for Changer<'_> {
    fn drop(self) {
        let Changer {
            seds: _,
            transforms: _,
        } = self;
    }
}

impl<'a> Model for Changer<'a> {
    ghost use Rattle.ix_transforms.specs.Prepared.{Changing};

    ghost Value = { Changing };

    ghost view = { λ c. record { seds = c.seds; transforms = c.transforms } };
}

/// What an event comes to.
fn outcome(queued: Queued) -> Routed
    ensures { result ≡ outcome queued }
{
    match queued.queue {
        Queue::IndexQueue => Routed::To(queued.event),
        Queue::NullQueue => Routed::Null,
    }
}

impl<'a> Changer<'a> {
    /// These changes, to be made to many events.
    pub fn new(
        alloc: Global,
        seds: &'a SedList,
        transforms: &'a TransformList,
    ) -> Result<Changer<'a>, NoMemory>
        ensures seds { IfOk result (λ changer. changer.seds ≡ seds.entry.now) }
        ensures transforms { IfOk result (λ changer. changer.transforms ≡ transforms.entry.now) }
    {
        let seds = prepare_seds(alloc, seds)?;
        let transforms = prepare_transforms(alloc, transforms)?;
        Ok(Changer { seds, transforms })
    }

    /// The event as it comes to the transforms.
    fn start(&self, alloc: Global, event: Event) -> Result<Queued, NoMemory>
        requires { All (λ sed. IsApplicable sed) self.now.seds }
        ensures { IfOk result (λ queued. queued ≡ start self.now.seds event) }
    {
        let mut event = event;
        event.raw = change_all(alloc, &self.seds, event.raw)?;
        Ok(Queued {
            event,
            queue: Queue::IndexQueue,
        })
    }

    /// What an event comes to: first the changes of its raw text, then the transforms.
    fn change(&self, alloc: Global, event: Event) -> Result<Routed, NoMemory>
        requires { All (λ sed. IsApplicable sed) self.now.seds }
        ensures { IfOk result (λ routed. routed ≡ changed self.now.seds self.now.transforms event) }
    {
        let queued = self.start(alloc, event)?;
        let queued = transform_all(alloc, &self.transforms, queued)?;
        Ok(outcome(queued))
    }

    /// What an event comes to at index time, as `apply` has it. A raw text that no change alters is
    /// not copied. Where there is no room in memory the event is dropped.
    pub fn apply(&self, alloc: Global, event: Event) -> Result<Routed, NoMemory>
        requires { All (λ sed. IsApplicable sed) self.now.seds }
        ensures changed { IfOk result (λ routed. routed ≡ changed self.now.seds self.now.transforms event) }
        ensures sizes { IfOk result (λ routed. HasSizes event routed) }
        ensures moments { IfOk result (λ routed. HasMoments event routed) }
    {
        let routed = self.change(alloc, event)?;
        Ok(routed)
    }
}

/// What an event comes to at index time. First each change by SEDCMD is made to its raw text, then
/// each transform, the first one first, to what the ones before it left. An event that then goes to
/// the null queue is not kept.
///
/// The conditions are those that `Sed::read` and `Transform::read` give. A raw text that no change
/// alters is not copied. Where there is no room in memory the event is dropped. Who changes many
/// events makes a `Changer`.
pub fn apply(
    alloc: Global,
    seds: &SedList,
    transforms: &TransformList,
    event: Event,
) -> Result<Routed, NoMemory>
    requires seds { All (λ sed. IsApplicable sed) seds.now }
    requires transforms { All (λ transform. HasDestination transform) transforms.now }
    ensures changed { IfOk result (λ routed. routed ≡ changed seds.now transforms.now event) }
    ensures sizes { IfOk result (λ routed. HasSizes event routed) }
    ensures moments { IfOk result (λ routed. HasMoments event routed) }
{
    let changer = Changer::new(alloc, seds, transforms)?;
    let routed = changer.apply(alloc, event)?;
    Ok(routed)
}
