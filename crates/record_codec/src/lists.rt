// Lists taken out of their place and put back, so that they change where they lie.
ghost use Rattle.std.specs.Prelude.{◌≡◌, ◌≤◌, ◌+◌, [], ◌∷◌, ◌++◌, length, vec_capacity};

use plain_lists::LongList;
use std::mem;

// Takes the elements out of a list. It moves none.
pub fn take_all<T: Drop>(list: &mut LongList<T>) -> Vec<T>
    ensures elements { result.items ≡ list.old }
    ensures none { list.new ≡ [] }
{
    let alloc = list.allocator();
    Vec::from(mem::replace(list, LongList::new(alloc)))
}

// Adds an element at the end, with all elements in a list that has room for it.
pub fn push_into<T: Drop>(list: &mut LongList<T>, element: T, mut room: Vec<T>)
    requires none { room.items ≡ [] }
    requires room { length list.old + 1 ≤ vec_capacity room }
    ensures { list.new ≡ list.old ++ element ∷ [] }
{
    let mut elements = take_all(list);
    let _fits = room.append(&mut elements);
    room.push_reserved(element);
    *list = LongList::from(room);
}
