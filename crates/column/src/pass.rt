// The pass of a column: the walk writes its entries, then the level is taken away.
ghost use Rattle.std.specs.Prelude.{◌≡◌, false, ℕ, ◌-◌, ◌≤◌, ◌<◌, length, get_or};
ghost use Rattle.meaning.specs.Active.{used};
ghost use Rattle.meaning.specs.Letters.{mode_of};
ghost use Rattle.sums.specs.Sums.{array_of, sums_with};
ghost use Rattle.sums.specs.Level.{raised, whole_of};
ghost use Rattle.column.specs.Pass.{Room, entry_at, passed};
ghost use Rattle.column.specs.Walk.{level_in};

use crate::Column;

// What the walk starts from: the four sums of index 0, raised by the mode's level, and the whole of that level.
#[derive(Clone, Copy)]
struct Start {
    sums: [[u32; 2]; 2],
    whole: u32,
}

// Takes a number away from each entry.
fn take_away(part: &mut [u32], by: u32)
    requires { (k : ℕ) → k < length part.old → by ≤ get_or part.old k 0 }
    ensures { (k : ℕ) → k < length part.old → get_or part.new k 0 ≡ get_or part.old k 0 - by }
{
    if by == 0 {
        return;
    }
    for x in part.iter_mut() {
        *x -= by;
    }
}

impl<'a> Column<'a> {
    fn begin(&self) -> Start
        ensures sums_value { result.sums ≡ array_of (raised (sums_with self.now.w.now self.now.p (λ i. false)) (level_in self.now)) }
        ensures whole_value { result.whole ≡ whole_of (level_in self.now) }
    {
        let s = sums::sums(self.w, self.p);
        if self.heterozygous {
            let level = sums::level(s);
            return Start {
                sums: sums::raised(s, level),
                whole: level[0] + level[1],
            };
        }
        Start { sums: s, whole: 0 }
    }

    // The entries that stand for a division, by the mode's charge: the walk has one charge, on sums that are raised by the mode's level,
    // which is taken away afterwards.
    fn charge_all(&self, part: &mut [u32])
        requires room { Room self.now.turn.now self.now.p self.now.taken.now }
        requires entries_len { used self.now.p ≡ length part.old }
        ensures { (k : ℕ) → k < used self.now.p → get_or part.new k 0
            ≡ entry_at (mode_of self.now.heterozygous).charged self.now.w.now self.now.turn.now self.now.taken.now self.now.p k }
    {
        let start = self.begin();
        self.pass(start.sums, part);
        take_away(part, start.whole);
    }

    // The column's pass: all entries of its part of the work room, zeros behind those that stand for a division.
    pub fn fill(&self, part: &mut [u32])
        requires room { Room self.now.turn.now self.now.p self.now.taken.now }
        requires p_in_bounds { used self.now.p ≤ length part.old }
        ensures { part.new
            ≡ passed (mode_of self.now.heterozygous).charged self.now.w.now self.now.turn.now self.now.taken.now self.now.p (length part.old) }
    {
        let (own, behind) = part.split_at_mut(plain::entries(self.p));
        self.charge_all(own);
        behind.fill(0);
    }
}
