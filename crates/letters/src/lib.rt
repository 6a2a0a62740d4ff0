// What is read off a tally: each column's four sums, the letters that are reported, the flips, and the margins.
#![tactic(auto)]

ghost use Rattle.std.specs.Prelude.{◌≡◌, cond, not, true, false, List, [], ◌∷◌, ℕ, ◌+◌, ◌*◌, ◌≤◌, ◌<◌, ltb, eqb, length};
ghost use Rattle.meaning.specs.Numbers.{bit};
ghost use Rattle.meaning.specs.Block.{Matrix};
ghost use Rattle.meaning.specs.Charge.{Letter, Sums, W};
ghost use Rattle.meaning.specs.Letters.{mode_of};
ghost use Rattle.meaning.specs.Answer.{division_of};
ghost use Rattle.meaning.specs.Margins.{distance};
ghost use Rattle.sums.specs.Sums.{sums_of, array_of, Small, pair_at};
ghost use Rattle.tally.specs.Tally.{Tallied};
ghost use Rattle.letters.specs.Lettered.{Lettered, column_parts};

// How far apart the two sums are that each side's letter is chosen from. By name, as the documents name the haplotypes: who writes them
// writes each at a place of its own, so an array by side is no plainer.
#[derive(Clone, Copy)]
pub struct Margins {
    pub first: u32,
    pub second: u32,
}

// The letters that are reported of the two sides at a column, how many entries differ from their side's letter, and the margins.
#[derive(Clone, Copy)]
pub struct Letters {
    pub first: u8,
    pub second: u8,
    pub flips: u32,
    pub margins: Margins,
}

// A part of the tallies of column j, by side: that of the entries with letter 1, then that of those with letter 0.
fn parts_at<F: Fn(u32) -> u32>(tally: &[u32], j: usize, part: F) -> [[u32; 2]; 2]
    requires callable { F.IsAlwaysCallable part }
    requires inside { 4 * j + 4 ≤ length tally.now }
    ensures { (f : ℕ → ℕ) → ((x y : ℕ) → F.post part x y → y ≡ f x) → result ≡ column_parts f tally.now j }
{
    let k = 4 * j;
    [
        [part(tally[k + 1]), part(tally[k])],
        [part(tally[k + 3]), part(tally[k + 2])],
    ]
}

// The four sums of column j: a side's W0 is the weight of its entries with letter 1, its W1 of those with letter 0.
pub fn sums(tally: &[u32], j: usize) -> [[u32; 2]; 2]
    requires { 4 * j + 4 ≤ length tally.now }
    ensures value { (M : Matrix) (sides : List ℕ) → Tallied M sides tally.now → j < M.columns
        → result ≡ array_of (W M (division_of sides) j) }
    ensures small { Small (sums_of result) }
{
    parts_at(tally, j, |x| x % 1048576)
}

// The two sums that each side's letter is chosen from: its own, or where the haplotypes differ those of the column, 0 on the side first.
fn choices(s: [[u32; 2]; 2], heterozygous: bool) -> [[u32; 2]; 2]
    requires { Small (sums_of s) }
    ensures { result ≡ array_of ((mode_of heterozygous).choice (sums_of s)) }
{
    if heterozygous {
        let x = s[0][0] + s[1][1];
        let y = s[0][1] + s[1][0];
        return [[x, y], [y, x]];
    }
    // Not `s` alone: a proof is told nothing of the length of an array that is passed by value.
    [[s[0][0], s[0][1]], [s[1][0], s[1][1]]]
}

// The letter of a side by its two sums: 0 if the first is smaller, otherwise 1.
fn letter(w0: u32, w1: u32) -> u8
    ensures { result ≡ bit (not (ltb w0 w1)) }
{
    u8::from(w0 >= w1)
}

// The letters of both sides, by what they are chosen from; where the haplotypes differ the second is the other letter.
#[tactic(auto, using(crate::proofs::Sides::letters_crossed))]
fn letters_of(c: [[u32; 2]; 2], heterozygous: bool) -> [u8; 2]
    ensures { (w : Sums) → c ≡ array_of ((mode_of heterozygous).choice w)
        → result ≡ bit ((mode_of heterozygous).letter w false) ∷ bit ((mode_of heterozygous).letter w true) ∷ [] }
{
    let a = letter(c[0][0], c[0][1]);
    if heterozygous {
        return [a, 1 - a];
    }
    [a, letter(c[1][0], c[1][1])]
}

// What is reported of a side: 2 where its two sums are equal, otherwise its letter.
pub fn reported(w0: u32, w1: u32) -> u8
    ensures { result ≡ cond (eqb w0 w1) 2 (bit (not (ltb w0 w1))) }
{
    if w0 == w1 { 2 } else { letter(w0, w1) }
}

// The margins of both sides: the distance between the two sums that each letter is chosen from.
fn margins_of(c: [[u32; 2]; 2]) -> Margins
    ensures { (result.first ≡ distance (sums_of c false false) (sums_of c false true))
        × (result.second ≡ distance (sums_of c true false) (sums_of c true true)) }
{
    Margins {
        first: c[0][0].abs_diff(c[0][1]),
        second: c[1][0].abs_diff(c[1][1]),
    }
}

// The entries of a side that differ from its letter: those of the other letter, 0 first.
#[tactic(auto, using(crate::proofs::Sides::against_zero, crate::proofs::Sides::against_one))]
fn against(n: [u32; 2], letter: u8) -> u32
    ensures { (l : Letter) → letter ≡ bit l → result ≡ pair_at n l }
{
    if letter == 0 { n[0] } else { n[1] }
}

// The letters that are reported of column j, the flips against its letters, and the margins.
pub fn letters_at(tally: &[u32], j: usize, heterozygous: bool) -> Letters
    requires { 4 * j + 4 ≤ length tally.now }
    ensures { (M : Matrix) (sides : List ℕ) → Tallied M sides tally.now → j < M.columns
        → Lettered (mode_of heterozygous) M (division_of sides) j result }
{
    let s = sums(tally, j);
    let c = choices(s, heterozygous);
    let l = letters_of(c, heterozygous);
    let f = reported(c[0][0], c[0][1]);
    let g = reported(c[1][0], c[1][1]);
    let n = parts_at(tally, j, |x| x / 1048576);
    let x = against(n[0], l[0]);
    let y = against(n[1], l[1]);
    Letters {
        first: f,
        second: g,
        flips: x + y,
        margins: margins_of(c),
    }
}
