// A stack in fixed memory: the labels and the nodes that wait, and a text that is written from its end to its start.
ghost use Rattle.std.specs.Prelude.{◌≡◌, ◌<◌, ◌≤◌, [], ◌∷◌, length};
ghost use Rattle.text.specs.Stack.{top_of, below_top};

use std::marker::Model;

// At most `N` items, in an array that is lent: so a stack is handed on without them. They stand at the array's end, the last one put
// before the others.
#[derive(Drop)]
pub(crate) struct Stack<'a, T, const N: usize> {
    items: &'a mut [T],
    first: usize,
}

impl<'a, T, const N: usize> Model for Stack<'a, T, N> {
    ghost use Rattle.std.specs.Prelude.{List, ◌≡◌, ◌≤◌, drop, length};

    ghost Value = { List T };

    ghost view = { λ s. drop s.first s.items.now };

    ghost invariant = { λ s. (s.first ≤ N) × (length s.items.now ≡ N) };
}

impl<'a, T: Copy, const N: usize> Stack<'a, T, N> {
    // No item yet: what the array has nobody sees.
    pub(crate) fn new(items: &'a mut [T; N]) -> Self
        ensures { result ≡ [] }
    {
        Stack { items, first: N }
    }

    pub(crate) fn push(&mut self, item: T)
        requires { length self.old < N }
        ensures { self.new ≡ item ∷ self.old }
    {
        self.first -= 1;
        self.items[self.first] = item;
    }

    pub(crate) fn pop(&mut self) -> Option<T>
        ensures top { result ≡ top_of self.old }
        ensures rest { self.new ≡ below_top self.old }
        ensures few { length self.old ≤ N }
    {
        if self.first == N {
            return None;
        }
        let item = self.items[self.first];
        self.first += 1;
        Some(item)
    }

    pub(crate) fn as_slice(&self) -> &[T]
        ensures { result.now ≡ self.now }
    {
        &self.items[self.first..]
    }
}
