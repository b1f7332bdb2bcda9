// The starts of a set of slots, and the smallest of them (rule 6). For a wheel outside its ranges the
// answer is 0, and slots from N on are passed over.
#![tactic(auto)]

ghost use Rattle.std.specs.Prelude.{◌≡◌, ◌≤◌, ◌<◌};
ghost use Rattle.rules.specs.Wheels.{Measured, start};
ghost use Rattle.rules.specs.Best.{smallest_start};

use rules::Wheel;

// Whether slot i is a start: chosen, and its predecessor round the wheel is not.
pub fn is_start(x: u64, n: usize, i: usize) -> bool
    requires { (n ≤ 64) × (i < n) }
    ensures { result ≡ start n x i }
{
    let before = if 0 < i { i - 1 } else { n - 1 };
    slots::has_slot(x, i) && !slots::has_slot(x, before)
}

// The smallest start of the set x (rule 6); N where it has none.
pub fn smallest_start(w: Wheel, x: u64) -> usize
    ensures { Measured w (smallest_start w.n x) result }
{
    if !slots::legal(w) {
        return 0;
    }
    let n = w.n;
    for i in 0..n {
        if is_start(x, n, i) {
            return i;
        }
    }
    n
}
