//! Room in a vector for one value more, made before it is wanted. Whoever works a command out makes
//! it; the store puts the value in its place once the command stands.

ghost use Rattle.std.specs.Prelude.{◌≡◌, ◌≤◌, ◌<◌, [], IfOk, vec_len, vec_capacity};
ghost use Rattle.ix_channels.specs.Rooms.{HasRoom, TakesMore, put_into};

use ix_base::NoMemory;
use std::alloc::Global;

/// How many values a vector has room for at first.
const FIRST_CAPACITY: usize = 4;

/// A value that is to stand at a place in a vector, with a wider vector where that one is full.
#[derive(Drop)]
pub struct ReservedInsert<T> {
    /// Where it is to stand.
    pub at: usize,
    pub value: T,
    /// The wider list, where the one that is there is full.
    pub wide: Option<Vec<T>>,
}

/// An empty vector with twice the room of one that is full.
fn wider<T: Drop>(alloc: Global, list: &Vec<T>) -> Result<Vec<T>, NoMemory>
    ensures empty { IfOk result (λ wide. wide.items ≡ []) }
    ensures wider { IfOk result (λ wide. vec_len list.now < vec_capacity wide) }
{
    let Some(capacity) = list.len().max(FIRST_CAPACITY).checked_mul(2) else {
        return Err(NoMemory);
    };
    Ok(Vec::with_capacity(alloc, capacity)?)
}

impl<T: Drop> ReservedInsert<T> {
    /// Room for a value that is to stand at this place, so that those from there on stand behind
    /// it.
    pub fn make(
        alloc: Global,
        list: &Vec<T>,
        at: usize,
        value: T,
    ) -> Result<ReservedInsert<T>, NoMemory>
        requires { at ≤ vec_len list.now }
        ensures at { IfOk result (λ room. room.at ≡ at) }
        ensures value { IfOk result (λ room. room.value ≡ value) }
        ensures room { IfOk result (λ room. HasRoom room list.now) }
    {
        let wide = if list.len() < list.capacity() {
            None
        } else {
            Some(wider(alloc, list)?)
        };
        Ok(ReservedInsert { at, value, wide })
    }

    /// Puts the value in its place. It takes no memory.
    pub fn put(self, list: &mut Vec<T>)
        requires { HasRoom self list.old }
        ensures { list.new.items ≡ put_into self list.old.items }
    {
        let ReservedInsert { at, value, wide } = self;
        widen(list, wide);
        list.insert(at, value).unwrap();
    }
}

/// Moves the values into a wider vector, which is empty, where there is one.
fn widen<T: Drop>(list: &mut Vec<T>, wide: Option<Vec<T>>)
    requires { TakesMore wide list.old }
    ensures items { list.new.items ≡ list.old.items }
    ensures room { vec_len list.new < vec_capacity list.new }
{
    let Some(mut wide) = wide else {
        return;
    };
    wide.append(list).unwrap();
    *list = wide;
}
