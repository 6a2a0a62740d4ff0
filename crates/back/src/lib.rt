// The way back through one column: the reads that close there get the first sides in closing order that have the least entry.
#![tactic(auto)]

ghost use Rattle.std.specs.Prelude.{◌≡◌, not, ℕ, ◌+◌, ◌-◌, ◌*◌, ◌/◌, ◌^◌, ◌≤◌, ◌<◌, length, get_or, take, eqb};
ghost use Rattle.meaning.specs.Numbers.{bit, sum_to};
ghost use Rattle.meaning.specs.Active.{used};
ghost use Rattle.meaning.specs.Rule.{index_at, least_at};
ghost use Rattle.meaning.proofs.Lists.{Distinct};
ghost use Rattle.meaning.specs.Answer.{division_of};
ghost use Rattle.layout.specs.Places.{end_at};
ghost use Rattle.back.specs.Sides.{next_side, settled};

use layout::Place;

// The least of the entries from, from + step, .. of a column.
pub fn least_from(col: &[u32], from: usize, step: usize) -> u32
    requires step_nonzero { (0 < step) × (from < step) }
    requires step_value { (step * (length col.now / step) ≡ length col.now) × (0 < length col.now) }
    ensures { result ≡ least_at step (length col.now / step) col.now from }
{
    let mut lowest = col[from];
    for row in 1..col.len() / step {
        lowest = lowest.min(col[from + row * step]);
    }
    lowest
}

// How many reads of the list go on after column j: their last cell is not in it. Those that close there stand behind them.
pub fn going_on(list: &[u16], places: &[Place], j: usize) -> usize
    requires few { (length list.now ≤ 12) × (j < 1024) }
    requires by_index { (i : ℕ) → i < length list.now → get_or list.now i 0 < length places.now }
    requires by_index_2 { (i : ℕ) → i + 1 < length list.now → end_at places.now (get_or list.now i 0) ≡ j + 1
        → end_at places.now (get_or list.now (i + 1) 0) ≡ j + 1 }
    ensures { result ≡ sum_to (length list.now) (λ i. bit (not (eqb (end_at places.now (get_or list.now i 0)) (j + 1)))) }
{
    let after = j + 1;
    list.iter()
        .position(|&r| places[usize::from(r)].end as usize == after)
        .unwrap_or(list.len())
}

// The side of the i-th read of the list.
fn side_of(list: &[u16], i: usize, sides: &[u8]) -> usize
    requires i_in_bounds { (i < length list.now) × (get_or list.now i 0 < length sides.now) }
    requires by_index { (r : ℕ) → get_or sides.now r 0 ≤ 1 }
    ensures { result ≡ bit (division_of sides.now (get_or list.now i 0)) }
{
    usize::from(sides[usize::from(list[i])])
}

// An index of i reads, and the digit of the next one; document 01 asks for shifts here.
fn class(low: usize, digit: usize, i: usize) -> usize
    requires { (0 < i) × (i < 12) × (low < used i) × (digit ≤ 1) }
    ensures { (result ≡ low + digit * 2 ^ (i - 1)) × (result < 2 ^ i) }
{
    low + (digit << (i - 1))
}

// The index of the first s reads of the list.
fn fixed(list: &[u16], s: usize, sides: &[u8]) -> usize
    requires s_nonzero { (0 < s) × (s ≤ 12) × (s ≤ length list.now) }
    requires by_index { (i : ℕ) → i < s → get_or list.now i 0 < length sides.now }
    requires by_index_2 { (r : ℕ) → get_or sides.now r 0 ≤ 1 }
    ensures { result ≡ index_at (take s list.now) (division_of sides.now) }
{
    let head = side_of(list, 0, sides);
    let mut low: usize = 0;
    for i in 1..s {
        let digit = side_of(list, i, sides) ^ head;
        low = class(low, digit, i);
    }
    low
}

// The side of the read after i fixed ones that has the least entry, side 0 if both have it. Its digit is its side, exchanged where the
// first read is on side 1.
fn first_side(col: &[u32], low: usize, head: usize, i: usize) -> u8
    requires i_nonzero { (0 < i) × (i < 12) × (low < used i) × (head ≤ 1) }
    requires i_value { (2 ^ i * (length col.now / 2 ^ i) ≡ length col.now) × (0 < length col.now) }
    ensures { result ≡ bit (next_side col.now low head i) }
{
    let step = plain::power(i);
    let a = least_from(col, class(low, head, i), step);
    let b = least_from(col, class(low, 1 - head, i), step);
    u8::from(b < a)
}

// The reads after the first s of the list, one by one.
fn settle_from(col: &[u32], list: &[u16], s: usize, sides: &mut [u8])
    requires few { (length list.now ≤ 12) × (0 < s) × (s ≤ length list.now) × Distinct list.now }
    requires by_index { (i : ℕ) → i < length list.now → get_or list.now i 0 < length sides.old }
    requires col_len { length col.now ≡ used (length list.now) }
    requires by_index_2 { (r : ℕ) → get_or sides.old r 0 ≤ 1 }
    ensures { (r : ℕ) → get_or sides.new r 0
        ≡ bit (settled col.now list.now s sides.old r) }
{
    let head = side_of(list, 0, sides);
    let mut low = fixed(list, s, sides);
    for i in s..list.len() {
        let side = first_side(col, low, head, i);
        let r = usize::from(list[i]);
        sides[r] = side;
        low = class(low, usize::from(side) ^ head, i);
    }
}

// The reads of the list that close, those after the first s, get the first sides in closing order that have the least entry.
pub fn settle(col: &[u32], list: &[u16], s: usize, sides: &mut [u8])
    requires few { (length list.now ≤ 12) × (s ≤ length list.now) × Distinct list.now }
    requires by_index { (i : ℕ) → i < length list.now → get_or list.now i 0 < length sides.old }
    requires col_len { length col.now ≡ used (length list.now) }
    requires by_index_2 { (r : ℕ) → get_or sides.old r 0 ≤ 1 }
    ensures { (r : ℕ) → get_or sides.new r 0
        ≡ bit (settled col.now list.now s sides.old r) }
{
    if s == list.len() {
        return;
    }
    if s == 0 {
        let r = usize::from(list[0]);
        sides[r] = 0;
        settle_from(col, list, 1, sides);
        return;
    }
    settle_from(col, list, s, sides);
}
