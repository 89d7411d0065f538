// What elements are put into, one behind the other: a list of fixed capacity, or lent memory from its front on. Either says where it has no more room.
ghost use Rattle.std.specs.Prelude.{ℕ, ◌+◌, ◌≤◌, ◌≡◌, length, cond};
ghost use Rattle.arrayvec.specs.ArrayVec.{array_vec_len};

use arrayvec::ArrayVec;

// What takes elements.
pub(crate) trait Sink<T: Copy> {
    // How many elements it has.
    ghost count: { Self → ℕ };

    fn count(&self) -> usize
        ensures { result ≡ count self.now };

    // Puts one more, where there is room, and says so.
    fn put(&mut self, element: T) -> bool
        ensures { count self.new ≡ cond result (count self.old + 1) (count self.old) };
}

impl<T: Copy, const N: usize> Sink<T> for ArrayVec<T, N> {
    ghost count = { array_vec_len };

    fn count(&self) -> usize {
        self.len()
    }

    fn put(&mut self, element: T) -> bool {
        if self.is_full() {
            return false;
        }
        self.push(element);
        true
    }
}

// Lent memory, and how many elements stand at its front.
pub(crate) struct Front<'a, T: Copy> {
    memory: &'a mut [T],
    count: usize,
    ghost within: { count ≤ length memory.now },
}

impl<'a, T: Copy> Front<'a, T> {
    // None yet.
    pub(crate) fn new(memory: &'a mut [T]) -> Front<'a, T>
        ensures { result.count ≡ 0 }
    {
        Front { memory, count: 0 }
    }

    // The elements.
    pub(crate) fn elements(self) -> &'a mut [T]
        ensures { length result.now ≡ self.entry.count }
    {
        let Front { memory, count } = self;
        &mut memory[..count]
    }
}

impl<'a, T: Copy> Sink<T> for Front<'a, T> {
    ghost count = { λ f. f.count };

    fn count(&self) -> usize {
        self.count
    }

    fn put(&mut self, element: T) -> bool {
        let Some(place) = self.memory.get_mut(self.count) else {
            return false;
        };
        *place = element;
        self.count += 1;
        true
    }
}
