// Memory that held secrets: a guard that leaves zeros there, and a look at whether they stand.
#![tactic(auto)]

ghost use Rattle.std.specs.Prelude.{◌≡◌, true, length, replicate};

#[cfg(test)]
mod tests;
mod zero;

pub use zero::Zero;

// Lends out numbers that are secret, and leaves zeros in their place when it ends, however it ends. What it does not do: it reaches
// no copies in registers or spills.
pub struct Wiped<'a, T: Zero> {
    pub items: &'a mut [T],
}

impl<T: Zero> Drop for Wiped<'_, T> {
    fn drop(self)
        ensures { self.exit.0.now ≡ replicate (length self.entry.items.now) T.ZERO }
    {
        self.items.fill(T::ZERO);
        let Wiped { items: _ } = self;
    }
}

// Whether all are zeros. Where they are a local array, a compiler that sees nobody read the zeros may leave the writes out; a caller
// that acts on this answer reads them. It goes over all of them, whatever they are.
pub fn all_zero<T: Zero>(items: &[T]) -> bool
    ensures zeros { items.now ≡ replicate (length items.now) T.ZERO → result ≡ true }
    ensures only { result ≡ true → items.now ≡ replicate (length items.now) T.ZERO }
{
    items.iter().fold(T::ZERO, |any, t| any | *t) == T::ZERO
}
