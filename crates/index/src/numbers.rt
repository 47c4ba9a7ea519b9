// The numbers in the order of their items' keys: a search by halves, and one number more.
ghost use Rattle.std.specs.Prelude.{◌≡◌, ◌+◌, ◌≤◌, ◌&&◌, [], map, length, IfOk, if◌then◌else◌, nat_le, nat_lt};
ghost use Rattle.std.specs.List.{insert};
ghost use Rattle.index.specs.Order.{key_of, Indexed, Sought};
ghost use Rattle.index.specs.Contents.{entries, room as memory};

use crate::keys::{Key, Keyed};
use std::alloc::{AllocError, Global};

#[derive(Drop)]
pub struct Index {
    numbers: Vec<u16>,
}

// The key of the item `number`: none where the item has none, and none past the last item.
fn item_key<K, T: Keyed<K>>(items: &[T], number: u16) -> Option<K>
    ensures { result ≡ key_of (map T.Keyed.called items.now) number }
{
    items.get(usize::from(number)).and_then(|item| item.key())
}

impl Index {
    // An empty index, with memory for as many numbers as `room`.
    pub fn open(heap: Global, room: usize) -> Result<Index, AllocError>
        ensures { IfOk result (λ x. (entries x ≡ []) × (room ≤ memory x)) }
    {
        Ok(Index {
            numbers: Vec::with_capacity(heap, room)?,
        })
    }

    // How many numbers it holds.
    pub fn len(&self) -> usize
        ensures { result ≡ length (entries self.now) }
    {
        self.numbers.len()
    }

    // The number of the indexed item that has the key; or, where none has, the place at which its number would stand.
    pub fn find<K: Key + Copy, T: Keyed<K>>(&self, items: &[T], key: &K) -> Result<u16, usize>
        requires { Indexed K.Key.before (map T.Keyed.called items.now) (entries self.now) }
        ensures { Sought K.Key.before (map T.Keyed.called items.now) (entries self.now) key.now result }
    {
        let numbers = self.numbers.as_slice();
        let place = numbers.binary_search_by_key(&Some(*key), |number| item_key(items, *number))?;
        Ok(numbers[place])
    }

    // Puts the number in at the place, and answers whether it did: the place is none past the end, and there is memory for one more.
    // Nothing is allocated. A yes or no: nobody asks which of the two was missing.
    pub fn insert_at(&mut self, place: usize, number: u16) -> bool
        ensures answer { result ≡ (nat_le place (length (entries self.old)) && nat_lt (length (entries self.old)) (memory self.old)) }
        ensures numbers { entries self.new ≡ (if result then insert (entries self.old) place number else entries self.old) }
        ensures size { length (entries self.new) ≡ length (entries self.old) + (if result then 1 else 0) }
        ensures room { memory self.new ≡ memory self.old }
    {
        let size = self.len();
        place <= size
            && size < self.numbers.capacity()
            && self.numbers.insert(place, number).is_ok()
    }
}
