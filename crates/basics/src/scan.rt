// Looking through numbers for one that passes a test.
ghost use Rattle.std.specs.Prelude.{◌≡◌, ◌+◌, ◌^◌, ◌<◌, ◌≤◌, ℕ, Bool};
ghost use Rattle.theory.specs.Below.{any, first};

// The first of the `count` numbers from `from` on that passes the test, or the one behind them: the end stands for
// none, as in the definition `first`, by which answers are said.
pub fn first_in<F: Fn(usize) -> bool>(from: usize, count: usize, passes: F) -> usize
    requires fits { from + count < 2 ^ 64 }
    requires callable { (i : ℕ) → from ≤ i → i < from + count → F.pre passes i }
    ensures { (f : ℕ → Bool)
        → ((i : ℕ) (b : Bool) → from ≤ i → i < from + count → F.post passes i b → b ≡ f i)
        → result ≡ first f from count }
{
    for i in from..from + count {
        if passes(i) {
            return i;
        }
    }
    from + count
}

// Whether some number below n passes the test.
pub fn any_below<F: Fn(usize) -> bool>(n: usize, passes: F) -> bool
    requires { (i : ℕ) → i < n → F.pre passes i }
    ensures { (f : ℕ → Bool) → ((i : ℕ) (b : Bool) → i < n → F.post passes i b → b ≡ f i) → result ≡ any n f }
{
    for i in 0..n {
        if passes(i) {
            return true;
        }
    }
    false
}
