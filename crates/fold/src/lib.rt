// An index folded onto the shared reads: what the masks are made of by which each read turns it.
#![tactic(auto)]

ghost use Rattle.std.specs.Prelude.{◌≡◌, cond, ◌*◌, ◌≤◌, ◌<◌, eqb};
ghost use Rattle.fold.specs.Turn.{digit_of};

// The digit of a read with so many shared ones before it, if it is shared (b is 1); the first has none.
pub fn own(seen: usize, b: usize) -> usize
    requires { (seen < 12) × (b ≤ 1) }
    ensures { result ≡ digit_of seen * b }
{
    if seen == 0 {
        0
    } else {
        plain::power(seen - 1) * b
    }
}

// The first shared read's place, where none has been seen before place i.
pub fn lead(seen: usize, head: usize, i: usize) -> usize
    ensures { result ≡ cond (eqb seen 0) i head }
{
    if seen == 0 { i } else { head }
}
