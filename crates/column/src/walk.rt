// The walk through a column's divisions, in Gray code order: from one to the next a single read changes side.
// The letters of the paper's section 3 ("Algorithm engineering") beside the names here:
//   F(j)                   the p active reads: w holds their pairs of weights, turn their masks
//   B(k) = (R, S)          the division of index k: R is side 0 and S side 1; the first read stays in R, read d + 1 is on the side of digit d
//   W^0 and W^1 of R, S    s[side][letter]; `sums::moved` takes a read from one side to the other
//   the contribution of j  `sums::charged(s)`
//   C(j, B(k))             part[k], by `entry`
//   the projection column  taken: what column j - 1 hands over, by the index q of the division on the reads that both columns share
ghost use Rattle.std.specs.Prelude.{◌≡◌, ℕ, ◌+◌, ◌%◌, ◌^◌, ◌≤◌, ◌<◌, length, get_or, false};
ghost use Rattle.std.specs.Int.Bits.{bit_xor};
ghost use Rattle.std.specs.Int.Count.{count_trailing_zeros};
ghost use Rattle.meaning.specs.Active.{used};
ghost use Rattle.meaning.specs.Charge.{charge_of};
ghost use Rattle.sums.specs.Sums.{sums_of, array_of, Small, sums_with};
ghost use Rattle.sums.specs.Level.{raised};
ghost use Rattle.column.specs.Pass.{Room, entry_at};
ghost use Rattle.column.specs.Walk.{levelled, level_in, ColumnWalked, ColumnTurns};

use crate::Column;

// An entry from its four sums and its folded index.
fn entry(s: [[u32; 2]; 2], taken: &[u32], q: usize) -> u32
    requires { Small (sums_of s) × (q < length taken.now) × (charge_of (sums_of s) + get_or taken.now q 0 ≤ 4294967295) }
    ensures { result ≡ charge_of (sums_of s) + get_or taken.now q 0 }
{
    sums::charged(s) + taken[q]
}

// The digit that step n turns: the lowest that is 1 in n.
fn digit(n: usize) -> usize
    requires { (0 < n) × (n ≤ 2048) }
    ensures { (result ≡ count_trailing_zeros 64 n) × (result < 12) }
{
    u64::trailing_zeros(n as u64) as usize
}

// Where the walk stands: the number of the next step, the index of the last one, and its index on the shared reads.
#[derive(Clone, Copy)]
struct Stand {
    n: usize,
    k: usize,
    q: usize,
}

impl<'a> Column<'a> {
    // One step: the read of digit d leaves side `from`, so its pair moves among the four sums and its mask turns the folded index. The entry
    // of the index that this leads to is written. Inlined, so that the column's fields stay in registers.
    #[inline(always)]
    fn step(
        &self,
        x: Stand,
        s: [[u32; 2]; 2],
        d: usize,
        from: usize,
        part: &mut [u32],
    ) -> [[u32; 2]; 2]
        requires { ColumnTurns self.now x.n part.old s x.k x.q d from }
        ensures { ColumnWalked self.now (x.n + 1) part.new result
            (bit_xor x.k (2 ^ d)) (bit_xor x.q (get_or self.now.turn.now (d + 1) 0)) }
    {
        let t = sums::moved(s, self.w[d + 1], from);
        let to = x.k ^ (1 << d);
        let folded = x.q ^ self.turn[d + 1];
        part[to] = entry(t, self.taken, folded);
        t
    }

    // The three steps after step n, where n is a multiple of four: digit 0 goes to side 1, digit 1 turns, digit 0 comes back.
    #[inline(always)]
    fn three(&self, x: Stand, s: [[u32; 2]; 2], part: &mut [u32]) -> [[u32; 2]; 2]
        requires { (3 ≤ self.now.p) × (x.n % 4 ≡ 0) × (x.n < used self.now.p)
            × ColumnWalked self.now (x.n + 1) part.old s x.k x.q }
        ensures { ColumnWalked self.now (x.n + 4) part.new result
            (bit_xor x.k 2) (bit_xor x.q (get_or self.now.turn.now 2 0)) }
    {
        let n = x.n;
        let k = x.k;
        let q = x.q;
        let n1 = n + 1;
        let x1 = Stand { n: n1, k, q };
        let a = self.step(x1, s, 0, 0, part);
        let i = k ^ 1;
        let f = q ^ self.turn[1];
        let n2 = n + 2;
        let x2 = Stand { n: n2, k: i, q: f };
        let b = self.step(x2, a, 1, (k >> 1) & 1, part);
        let j = i ^ 2;
        let g = f ^ self.turn[2];
        let n3 = n + 3;
        let x3 = Stand { n: n3, k: j, q: g };
        self.step(x3, b, 0, 1, part)
    }

    // All steps, from the sums of index 0. Of every four steps the first turns the digit that its number gives, and the others turn digits
    // 0, 1 and 0.
    pub fn pass(&self, start: [[u32; 2]; 2], part: &mut [u32])
        requires room { Room self.now.turn.now self.now.p self.now.taken.now }
        requires p_in_bounds { used self.now.p ≤ length part.old }
        requires start_value { start ≡ array_of (raised (sums_with self.now.w.now self.now.p (λ i. false)) (level_in self.now)) }
        ensures { (k : ℕ) → k < used self.now.p → get_or part.new k 0
            ≡ entry_at (levelled (level_in self.now)) self.now.w.now self.now.turn.now self.now.taken.now self.now.p k }
    {
        let p = self.p;
        part[0] = entry(start, self.taken, 0);
        if p < 3 {
            if p == 2 {
                let x = Stand { n: 1, k: 0, q: 0 };
                self.step(x, start, 0, 0, part);
            }
            return;
        }
        let x = Stand { n: 0, k: 0, q: 0 };
        let mut s = self.three(x, start, part);
        let mut k: usize = 2;
        let mut q = self.turn[2];
        let mut n: usize = 4;
        let mut d: usize = 2;
        // no `for`: the digit that a step turns says where the walk ends, as there is no read for that of the step after the last
        while d < p - 1 {
            let from = (k >> d) & 1;
            let x = Stand { n, k, q };
            let t = self.step(x, s, d, from, part);
            k ^= 1 << d;
            q ^= self.turn[d + 1];
            let y = Stand { n, k, q };
            let u = self.three(y, t, part);
            s = u;
            k ^= 2;
            q ^= self.turn[2];
            n += 4;
            d = digit(n);
        }
    }
}
