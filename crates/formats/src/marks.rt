// Numbers that are marked as they come.
ghost use Rattle.std.specs.Prelude.{◌≡◌, ℕ, ◌<◌, ◌==◌, ◌||◌, false};
ghost use Rattle.formats.specs.Marks.{is_marked};

use std::mem;

// Which of the numbers below N are marked.
#[derive(Drop)]
pub(crate) struct Marks<const N: usize> {
    table: [bool; N],
}

impl<const N: usize> Marks<N> {
    // None of them.
    pub(crate) fn new() -> Marks<N>
        ensures { (n : ℕ) → is_marked result.table n ≡ false }
    {
        Marks { table: [false; N] }
    }

    // Marks a number, and says whether it was marked before.
    pub(crate) fn mark(&mut self, number: usize) -> bool
        requires { number < N }
        ensures before { result ≡ is_marked self.old.table number }
        ensures after { (n : ℕ) → is_marked self.new.table n ≡ (number == n || is_marked self.old.table n) }
    {
        mem::replace(&mut self.table[number], true)
    }
}
