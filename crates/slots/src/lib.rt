// The tests of a wheel and of a set of slots that every call begins with.
#![tactic(auto)]

ghost use Rattle.std.specs.Prelude.{◌≡◌, ◌<◌};
ghost use Rattle.rules.specs.Tells.{Tells};
ghost use Rattle.rules.specs.Sets.{has, Below};
ghost use Rattle.rules.specs.Wheels.{Legal};

use rules::Wheel;

// Whether every value of the wheel lies in its range.
pub fn legal(w: Wheel) -> bool
    ensures { Tells result (Legal w) }
{
    1 <= w.n && w.n <= 64 && 2 <= w.s.0 && w.s.0 <= 64 && w.h.0 < w.s.0 && 1 <= w.p && w.p <= 64
}

// Whether every slot of x is below n.
#[tactic(auto, using(crate::proofs::Words::below_word, crate::proofs::Words::below_rest))]
pub fn below(x: u64, n: usize) -> bool
    ensures { Tells result (Below n x) }
{
    64 <= n || x >> n == 0
}

// Whether slot i is in the set x.
#[tactic(auto, unfolding(rules::specs::Sets::has))]
pub fn has_slot(x: u64, i: usize) -> bool
    requires { i < 64 }
    ensures { result ≡ has x i }
{
    (x >> i) % 2 == 1
}
