// States put into the sets of an array, each where it belongs.
ghost use Rattle.std.specs.Prelude.{◌≡◌, ℕ, ◌≤◌, ◌<◌, eqb, ltb, length};
ghost use Rattle.theory.specs.Monitor.{state_limit};
ghost use Rattle.state_set.specs.Placing.{Placed};

use crate::StateSet;

// Puts p into the set of number `place(p, a)` for each of the first `count` numbers a.
fn put_one<F: Fn(usize, usize) -> usize>(sets: &mut [StateSet], p: usize, count: usize, place: &F)
    requires state { p < state_limit }
    requires callable { (a : ℕ) → a < count → F.pre place.now p a }
    requires room { (a i : ℕ) → a < count → F.post place.now p a i → i < length sets.old }
    ensures { (number : ℕ → ℕ → ℕ) → ((a i : ℕ) → a < count → F.post place.entry.now p a i → i ≡ number p a)
        → Placed number count (λ q. eqb q p) sets.old sets.new }
{
    for a in 0..count {
        let i = place(p, a);
        sets[i] = sets[i].with(p);
    }
}

// Puts each of the first n states p into the set of number `place(p, a)` for each of the first `count` numbers a.
pub fn put_each<F: Fn(usize, usize) -> usize>(
    sets: &mut [StateSet],
    n: usize,
    count: usize,
    place: F,
)
    requires states { n ≤ state_limit }
    requires callable { (p a : ℕ) → p < n → a < count → F.pre place p a }
    requires room { (p a i : ℕ) → p < n → a < count → F.post place p a i → i < length sets.old }
    ensures { (number : ℕ → ℕ → ℕ) → ((p a i : ℕ) → p < n → a < count → F.post place p a i → i ≡ number p a)
        → Placed number count (λ q. ltb q n) sets.old sets.new }
{
    for p in 0..n {
        put_one(sets, p, count, &place);
    }
}
