//! An event on its way through the transforms, with the queue that it goes to: its keys and their
//! values.

ghost use Rattle.std.specs.Prelude.{◌≡◌, ◌++◌, IfOk, OnOk, bytes_eq};
ghost use Rattle.ix_transforms.specs.Queues.{name_of, queue_or, value_of, limit_of, behind_or, with_value};

use crate::substitution::RAW_LIMIT;
use ix_base::{Bytes, Event, NoMemory};
use ix_conf_values::Key;
use std::alloc::Global;

/// Where an event goes.
#[derive(Clone, Copy)]
pub enum Queue {
    /// `indexQueue`: it is indexed.
    IndexQueue,
    /// `nullQueue`: it is not kept.
    NullQueue,
}

/// An event and the queue that it goes to.
#[derive(Drop)]
pub struct Queued {
    pub event: Event,
    pub queue: Queue,
}

/// The value of a key.
#[derive(Drop)]
pub enum Value<'a> {
    /// It stands in the event as it is.
    Lent(&'a [u8]),
    /// It is made of a prefix and what stands in the event.
    Made(Bytes),
}

impl Value<'_> {
    ghost use Rattle.ix_transforms.specs.Values.{bytes_in};

    /// Its bytes, lent.
    pub fn as_slice(&self) -> &[u8]
        ensures { result.now ≡ bytes_in self.now }
    {
        match self {
            Value::Lent(bytes) => bytes,
            Value::Made(bytes) => bytes.as_slice(),
        }
    }
}

fn name_of(queue: Queue) -> &'static [u8]
    ensures { result.now ≡ name_of queue }
{
    match queue {
        Queue::IndexQueue => b"indexQueue",
        Queue::NullQueue => b"nullQueue",
    }
}

fn is_name(text: &[u8], name: &[u8]) -> bool
    ensures { result ≡ bytes_eq text.now name.now }
{
    text == name
}

/// The queue of this name, or `queue` where it is no name of one.
fn queue_or(queue: Queue, text: &[u8]) -> Queue
    ensures { result ≡ queue_or queue text.now }
{
    if is_name(text, b"indexQueue") {
        Queue::IndexQueue
    } else if is_name(text, b"nullQueue") {
        Queue::NullQueue
    } else {
        queue
    }
}

/// How many bytes a value of the key has at the most.
pub fn limit_of(key: Key) -> usize
    ensures { result ≡ limit_of key }
{
    match key {
        Key::Raw => RAW_LIMIT,
        Key::Meta => 65_535,
        Key::Queue | Key::Index | Key::Host | Key::Source | Key::Sourcetype => 4096,
    }
}

/// A prefix and what stands behind it.
fn prefixed(alloc: Global, prefix: &[u8], field: &[u8]) -> Result<Bytes, NoMemory>
    ensures { IfOk result (λ made. made ≡ prefix.now ++ field.now) }
{
    let mut made = Bytes::copy_of(alloc, prefix)?;
    made.extend(field)?;
    Ok(made)
}

/// Puts what stands behind the prefix into the field. Where the text does not begin with the prefix
/// the field stays.
fn set_behind(field: &mut Bytes, prefix: &[u8], text: &[u8]) -> Result<(), NoMemory>
    ensures { OnOk result (field.new ≡ behind_or field.old prefix.now text.now) }
{
    if !text.starts_with(prefix) {
        return Ok(());
    }
    field.clear();
    field.extend(&text[prefix.len()..])
}

impl Queued {
    ghost use Rattle.ix_transforms.specs.Values.{bytes_in};

    /// The value of a key.
    pub fn value(&self, alloc: Global, key: Key) -> Result<Value<'_>, NoMemory>
        ensures { IfOk result (λ value. bytes_in value ≡ value_of key self.now) }
    {
        let event = &self.event;
        match key {
            Key::Raw => Ok(Value::Lent(event.raw.as_slice())),
            Key::Meta => Ok(Value::Lent(event.meta.as_slice())),
            Key::Queue => Ok(Value::Lent(name_of(self.queue))),
            Key::Index => Ok(Value::Lent(event.index.as_slice())),
            Key::Host => Ok(Value::Made(prefixed(alloc, b"host::", event.host.as_slice())?)),
            Key::Source => Ok(Value::Made(prefixed(alloc, b"source::", event.source.as_slice())?)),
            Key::Sourcetype => Ok(Value::Made(prefixed(
                alloc,
                b"sourcetype::",
                event.sourcetype.as_slice(),
            )?)),
        }
    }

    /// The event with this value of the key. One that does not have the key's prefix, or is no name
    /// of a queue, changes nothing.
    pub fn with_value(self, key: Key, text: Bytes) -> Result<Queued, NoMemory>
        ensures { IfOk result (λ next. next ≡ with_value key text self) }
    {
        let Queued {
            mut event,
            mut queue,
        } = self;
        let field = match key {
            Key::Raw => {
                event.raw = text;
                return Ok(Queued { event, queue });
            }
            Key::Meta => {
                event.meta = text;
                return Ok(Queued { event, queue });
            }
            Key::Index => {
                event.index = text;
                return Ok(Queued { event, queue });
            }
            Key::Queue => {
                queue = queue_or(queue, text.as_slice());
                return Ok(Queued { event, queue });
            }
            Key::Host => set_behind(&mut event.host, b"host::", text.as_slice()),
            Key::Source => set_behind(&mut event.source, b"source::", text.as_slice()),
            Key::Sourcetype => set_behind(&mut event.sourcetype, b"sourcetype::", text.as_slice()),
        };
        field?;
        Ok(Queued { event, queue })
    }
}
