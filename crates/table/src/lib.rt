// The table, column by column.
#![tactic(auto)]

ghost use Rattle.std.specs.Prelude.{◌≡◌, ℕ, ◌-◌, ◌*◌, ◌≤◌, ◌<◌, length, get_or};
ghost use Rattle.meaning.specs.Active.{entries};
ghost use Rattle.meaning.specs.Letters.{charge_in, mode_of};
ghost use Rattle.meaning.specs.Table.{table};
ghost use Rattle.meaning.specs.Call.{over, laid};
ghost use Rattle.meaning.specs.Rule.{rule_column, column_of};
ghost use Rattle.layout.specs.Matrices.{matrix_of};
ghost use Rattle.table.specs.Taken.{Handing, HandedOn};

// What column j takes over: nothing at column 0, else for each index of the s reads that it shares with the column before that one's
// least entry.
fn take_over(
    lists: &[layout::Column],
    j: usize,
    t: usize,
    s: usize,
    work: &[u32],
    taken: &mut [u32],
)
    requires { Handing lists.now j t s work.now taken.old }
    ensures { HandedOn lists.now j t s work.now taken.new }
{
    if j == 0 {
        taken[0] = 0;
        return;
    }
    let i = j - 1;
    let q = usize::from(lists[i].count);
    let from = i * t;
    let to = from + plain::entries(q);
    carry::carry(&work[from..to], plain::entries(s), taken);
}

// Which column is filled, how many entries a column has, and how it is charged.
#[derive(Clone, Copy)]
struct Filling {
    j: usize,
    t: usize,
    heterozygous: bool,
}

// Column j by the rule, from what the column before it holds: all its entries, written through its part of the work room. `w` and `turn` are
// room for what its reads bring.
fn column_by_rule(
    listed: &layout::Listed,
    at: Filling,
    w: &mut [[u32; 2]; 12],
    turn: &mut [usize; 12],
    taken: &mut [u32],
    work: &mut [u32],
)
    requires j_lt_m { (at.j < listed.now.reads.shape.m) × (at.t ≡ entries (matrix_of listed.now.reads)) }
    requires t_in_bounds { (at.t ≤ length taken.old) × (listed.now.reads.shape.m * at.t ≤ length work.old) }
    requires k_bound { 0 < at.j → (k : ℕ) → get_or (column_of (matrix_of listed.now.reads) work.old (at.j - 1)) k 0 ≤ 4000000000 }
    ensures { work.new
        ≡ laid (at.j * at.t) (rule_column (charge_in (mode_of at.heterozygous)) (matrix_of listed.now.reads) at.j
        (column_of (matrix_of listed.now.reads) work.old (at.j - 1)))
        work.old }
{
    let j = at.j;
    let t = at.t;
    let list = listed.active_reads(j);
    let s = cells::prepare(&listed.placed(), list, j, w, turn);
    take_over(listed.lists, j, t, s, work, taken);
    let from = j * t;
    let to = from + t;
    let column = column::Column {
        w,
        turn,
        p: list.len(),
        taken,
        heterozygous: at.heterozygous,
    };
    // document 01 asks for this form: the pass gets its column's entries as a mutable part
    column.fill(&mut work[from..to]);
}

// All columns in turn.
pub fn fill_table(
    listed: &layout::Listed,
    t: usize,
    heterozygous: bool,
    taken: &mut [u32],
    work: &mut [u32],
)
    requires t_value { t ≡ entries (matrix_of listed.now.reads) }
    requires t_in_bounds { (t ≤ length taken.old) × (listed.now.reads.shape.m * t ≤ length work.old) }
    ensures { work.new ≡ over (table (charge_in (mode_of heterozygous)) (matrix_of listed.now.reads)) work.old }
{
    let mut w = [[0u32; 2]; 12];
    let mut turn = [0usize; 12];
    for j in 0..listed.reads.shape.m {
        let at = Filling { j, t, heterozygous };
        column_by_rule(listed, at, &mut w, &mut turn, taken, work);
    }
}
