// The four sums of a column, by side and letter: the charging leaf, the level that the mode asks for, a read that changes side, and the charge.
#![tactic(auto)]

ghost use Rattle.std.specs.Prelude.{◌≡◌, true, false, ◌-◌, ◌/◌, ◌≤◌, ◌<◌, min, get_or};
ghost use Rattle.meaning.specs.Charge.{charge_of};
ghost use Rattle.sums.specs.Sums.{sums_of, array_of, Small, LightPairs, pair_at, sums_with, side_of, moved_sums, Movable};
ghost use Rattle.sums.specs.Level.{level_of, raised};

// The charging leaf: the four sums with all p reads on side 0.
pub fn sums(w: &[[u32; 2]; 12], p: usize) -> [[u32; 2]; 2]
    requires { (p ≤ 12) × LightPairs w.now p 65535 }
    ensures { result ≡ array_of (sums_with w.now p (λ i. false)) }
{
    let mut w0: u32 = 0;
    let mut w1: u32 = 0;
    for i in 0..p {
        w0 += w[i][0];
        w1 += w[i][1];
    }
    [[w0, w1], [0, 0]]
}

// The level of the all-heterozygous mode: what is added to each sum of either letter, so that the charge below is the mode's, and the
// whole level above it.
pub fn level(s: [[u32; 2]; 2]) -> [u32; 2]
    requires { Small (sums_of s) }
    ensures { result ≡ level_of true (sums_of s) }
{
    let w0 = s[0][0] + s[1][0];
    let w1 = s[0][1] + s[1][1];
    [w1.saturating_sub(w0) / 2, w0.saturating_sub(w1) / 2]
}

// The sums with the level added.
pub fn raised(s: [[u32; 2]; 2], level: [u32; 2]) -> [[u32; 2]; 2]
    requires { Small (raised (sums_of s) level) }
    ensures { result ≡ array_of (raised (sums_of s) level) }
{
    let x = level[0];
    let y = level[1];
    [[s[0][0] + x, s[0][1] + y], [s[1][0] + x, s[1][1] + y]]
}

// One read changes side: its pair leaves the sums of one side and enters those of the other. Document 01 asks for this form, a 2 by 2 array
// by value.
pub fn moved(s: [[u32; 2]; 2], w: [u32; 2], from: usize) -> [[u32; 2]; 2]
    requires { (from < 2) × Movable (sums_of s) (pair_at w) (side_of from) }
    ensures { result ≡ array_of (moved_sums (sums_of s) (pair_at w) (side_of from)) }
{
    let a = s[0][0];
    let b = s[0][1];
    let c = s[1][0];
    let d = s[1][1];
    let x = w[0];
    let y = w[1];
    if from == 0 {
        [[a - x, b - y], [c + x, d + y]]
    } else {
        [[a + x, b + y], [c - x, d - y]]
    }
}

// The lesser sum of a side.
fn lesser(side: [u32; 2]) -> u32
    ensures { result ≡ min (get_or side 0 0) (get_or side 1 0) }
{
    side[0].min(side[1])
}

// The charge of a column: the lesser sum of each side.
pub fn charged(s: [[u32; 2]; 2]) -> u32
    requires { Small (sums_of s) }
    ensures { result ≡ charge_of (sums_of s) }
{
    lesser(s[0]) + lesser(s[1])
}
