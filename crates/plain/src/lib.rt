// Powers of two: how many entries a column has, and what a digit stands for.
#![tactic(auto)]

ghost use Rattle.std.specs.Prelude.{◌≡◌, ◌^◌, ◌≤◌, ◌<◌};
ghost use Rattle.meaning.specs.Active.{used};

// 2 to the power i.
pub fn power(i: usize) -> usize
    requires { i < 12 }
    ensures { result ≡ 2 ^ i }
{
    1 << i
}

// How many entries a column with p active reads has.
pub fn entries(p: usize) -> usize
    requires { p ≤ 12 }
    ensures { result ≡ used p }
{
    if p == 0 { 1 } else { 1 << (p - 1) }
}
