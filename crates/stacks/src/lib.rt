// A stack of fixed size.
#![tactic(auto)]

ghost use Rattle.std.specs.Prelude.{◌≡◌, [], ◌∷◌, ◌<◌, length};

use std::marker::Model;

// At most `N` values, the last one pushed on top.
#[derive(Drop)]
pub struct Stack<T: Copy, const N: usize> {
    values: [T; N],
    count: usize,
}

// Clauses see the values, the top first.
impl<T: Copy, const N: usize> Model for Stack<T, N> {
    ghost use Rattle.std.specs.Prelude.{List, ◌≤◌, reverse, take};

    ghost Value = { List T };

    ghost view = { λ s. reverse (take s.count s.values) };

    ghost invariant = { λ s. s.count ≤ N };
}

impl<T: Copy, const N: usize> Stack<T, N> {
    // An empty stack. Its room is filled with a value that nobody sees.
    pub fn new(filler: T) -> Self
        ensures { result ≡ [] }
    {
        Stack {
            values: [filler; N],
            count: 0,
        }
    }

    // How many values there are.
    pub fn len(&self) -> usize
        ensures { result ≡ length self.now }
    {
        self.values[..self.count].len()
    }

    // Puts a value on top.
    pub fn push(&mut self, value: T)
        requires { length self.old < N }
        ensures { self.new ≡ value ∷ self.old }
    {
        let place = self.count;
        self.values[place] = value;
        self.count = place + 1;
    }

    // Takes the value on top.
    pub fn pop(&mut self) -> T
        requires { 0 < length self.old }
        ensures { self.old ≡ result ∷ self.new }
    {
        self.count -= 1;
        self.values[self.count]
    }
}
