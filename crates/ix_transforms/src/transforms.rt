//! What transforms do to an event and to its queue. The changes of events call it.

ghost use Rattle.std.specs.Prelude.{◌≡◌, ◌++◌, take, IfOk};
ghost use Rattle.std.specs.Option.{option_map};
ghost use Rattle.ix_match.specs.Matches.{LiesIn};
ghost use Rattle.ix_transforms.specs.Matches.{first};
ghost use Rattle.ix_transforms.specs.Writing.{written};
ghost use Rattle.ix_transforms.specs.Queues.{limit_of, value_of};
ghost use Rattle.ix_transforms.specs.Transforms.{destination, front, given_by, value_after, transformed, transformed_by};

use crate::matches::next_match;
use crate::queues::{Queued, limit_of};
use crate::writing::{Groups, add_parts, add_within, first_bytes};
use ix_base::{Bytes, NoMemory, Sequence};
use ix_conf_values::{Key, Transform, TransformList};
use ix_match::{Found, Regex};
use std::alloc::Global;
use std::marker::Model;

/// A transform that is made to many events. Its pattern is written out once. Contracts see the
/// transform.
pub struct PreparedTransform<'a> {
    transform: &'a Transform,
    regex: Regex,
}

/// Transforms, the first one first.
pub type PreparedTransforms<'a> = Sequence<PreparedTransform<'a>>;

/// It is written out, so that each place where one is let go is a call of it, which is proved once.
impl Drop for PreparedTransform<'_> {
    fn drop(self) {
        let PreparedTransform {
            transform: _,
            regex: _,
        } = self;
    }
}

impl<'a> Model for PreparedTransform<'a> {
    ghost use Rattle.std.specs.Prelude.{◌≡◌};
    ghost use Rattle.ix_conf_values.specs.declared.transforms.Transform.{Transform};

    ghost Value = { Transform };

    ghost view = { λ t. t.transform.now };

    ghost invariant = { λ t. t.regex ≡ t.transform.now.regex };
}

/// The key that is written: `_meta` where the value is added to the indexed fields, else that of
/// `DEST_KEY`.
fn destination(transform: &Transform) -> Key
    ensures { result ≡ destination transform.now }
{
    match transform.dest {
        Some(key) if !transform.write_meta => key,
        _ => Key::Meta,
    }
}

/// What stays in front of the value, cut to what the key takes: the indexed fields so far, with a
/// space behind them, where the value is added to them.
fn front(alloc: Global, transform: &Transform, queued: &Queued) -> Result<Bytes, NoMemory>
    ensures { IfOk result (λ kept. kept ≡ take (limit_of (destination transform.now))
        (front transform.now.write_meta queued.now.event.meta)) }
{
    let fields = queued.event.meta.as_slice();
    if !transform.write_meta || fields.is_empty() {
        return Ok(Bytes::new(alloc));
    }
    let mut kept = Bytes::copy_of(alloc, fields)?;
    kept.push(b' ')?;
    kept.truncate(limit_of(destination(transform)));
    Ok(kept)
}

/// The value that the destination has behind a match.
fn value_at_match(
    alloc: Global,
    transform: &Transform,
    queued: &Queued,
    text: &[u8],
    found: &Found,
) -> Result<Bytes, NoMemory>
    requires { LiesIn text.now 0 transform.now.regex.groups found.now }
    ensures { IfOk result (λ value. value ≡ take (limit_of (destination transform.now))
        (front transform.now.write_meta queued.now.event.meta
        ++ written transform.now.format (value_of (destination transform.now) queued.now) text.now found.now.groups)) }
{
    let key = destination(transform);
    let so_far = queued.value(alloc, key)?;
    let mut value = front(alloc, transform, queued)?;
    let groups = Groups {
        zeroth: so_far.as_slice(),
        text,
        spans: found.groups.as_slice(),
    };
    add_parts(
        &mut value,
        transform.format.as_slice(),
        &groups,
        limit_of(key),
    )?;
    Ok(value)
}

/// The value that the destination has where there is no match.
fn value_without(
    alloc: Global,
    transform: &Transform,
    queued: &Queued,
) -> Result<Option<Bytes>, NoMemory>
    ensures { IfOk result (λ value. value ≡ option_map (λ text.
        take (limit_of (destination transform.now)) (front transform.now.write_meta queued.now.event.meta ++ text))
        transform.now.default_value) }
{
    let Some(text) = &transform.default_value else {
        return Ok(None);
    };
    let mut value = front(alloc, transform, queued)?;
    add_within(
        &mut value,
        text.as_slice(),
        limit_of(destination(transform)),
    )?;
    Ok(Some(value))
}

impl<'a> PreparedTransform<'a> {
    /// What this transform is made with.
    fn new(alloc: Global, transform: &'a Transform) -> Result<PreparedTransform<'a>, NoMemory>
        ensures { IfOk result (λ prepared. prepared ≡ transform.entry.now) }
    {
        let regex = Regex::new(alloc, transform.regex.copy()?)?;
        Ok(PreparedTransform { transform, regex })
    }

    /// The value that the destination then has, by the text that is searched; `None` where nothing
    /// is written.
    fn value_given(
        &self,
        alloc: Global,
        queued: &Queued,
        text: &[u8],
    ) -> Result<Option<Bytes>, NoMemory>
        ensures { IfOk result (λ value. value ≡ option_map
            (λ given. take (limit_of (destination self.now)) (front self.now.write_meta queued.now.event.meta ++ given))
            (given_by self.now (value_of (destination self.now) queued.now) text.now (first self.now.regex text.now 0))) }
    {
        match next_match(alloc, &self.regex, text, 0)? {
            Some(found) => {
                let value = value_at_match(alloc, self.transform, queued, text, &found);
                drop(found);
                Ok(Some(value?))
            }
            None => value_without(alloc, self.transform, queued),
        }
    }

    /// The value that the destination then has; `None` where nothing is written.
    fn value_after(&self, alloc: Global, queued: &Queued) -> Result<Option<Bytes>, NoMemory>
        ensures { IfOk result (λ value. value ≡ value_after self.now queued.now) }
    {
        let source = queued.value(alloc, self.transform.source)?;
        let text = first_bytes(source.as_slice(), self.transform.lookahead as usize);
        self.value_given(alloc, queued, text)
    }

    /// What the transform leaves.
    fn transform(&self, alloc: Global, queued: Queued) -> Result<Queued, NoMemory>
        ensures { IfOk result (λ next. next ≡ transformed queued self.now) }
    {
        let Ok(value) = self.value_after(alloc, &queued) else {
            drop(queued);
            return Err(NoMemory);
        };
        match value {
            Some(value) => queued.with_value(destination(self.transform), value),
            None => Ok(queued),
        }
    }
}

/// What these transforms are made with.
pub fn prepare_transforms<'a>(
    alloc: Global,
    transforms: &'a TransformList,
) -> Result<PreparedTransforms<'a>, NoMemory>
    ensures { IfOk result (λ prepared. prepared ≡ transforms.entry.now) }
{
    let mut prepared = Sequence::new(alloc);
    for transform in transforms.as_slice() {
        prepared.push(PreparedTransform::new(alloc, transform)?)?;
    }
    Ok(prepared)
}

/// What all transforms leave, the first one first.
pub fn transform_all(
    alloc: Global,
    transforms: &PreparedTransforms<'_>,
    queued: Queued,
) -> Result<Queued, NoMemory>
    ensures { IfOk result (λ next. next ≡ transformed_by transforms.now queued) }
{
    let mut now = queued;
    for by in transforms.as_slice() {
        now = by.transform(alloc, now)?;
    }
    Ok(now)
}
