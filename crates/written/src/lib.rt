// The answer block of a table that is filled: sides, letters and flips, cost.
#![tactic(auto)]

ghost use Rattle.std.specs.Prelude.{◌≡◌, ◌+◌, ◌*◌, ◌≤◌, length};
ghost use Rattle.meaning.specs.Charge.{least_cost};
ghost use Rattle.meaning.specs.Letters.{charge_in, mode_of};
ghost use Rattle.meaning.specs.Answer.{answer};
ghost use Rattle.meaning.specs.Call.{over};
ghost use Rattle.layout.specs.Matrices.{matrix_of};
ghost use Rattle.layout.specs.Lists.{Thin};
ghost use Rattle.written.specs.Output.{division_in, flips_of, with_letters, RightColumns};

use layout::Placed;
use sides::Table;

// The letters of both haplotypes, behind the sides that stand in the output; and the number of flips. The tally is room to work in.
fn write_letters(placed: &Placed, heterozygous: bool, tally: &mut [u32], out: &mut [u8]) -> u32
    requires thin { Thin (matrix_of placed.now.reads) }
    requires m_in_bounds { (17 + placed.now.reads.shape.n + 2 * placed.now.reads.shape.m ≤ length out.old)
        × (4 * placed.now.reads.shape.m ≤ length tally.old) }
    ensures value { result ≡ flips_of (mode_of heterozygous) (matrix_of placed.now.reads) (division_in placed.now.reads.shape.n out.old) }
    ensures out_after { out.new
        ≡ with_letters (mode_of heterozygous) (matrix_of placed.now.reads) (division_in placed.now.reads.shape.n out.old)
        placed.now.reads.shape.n placed.now.reads.shape.m out.old }
{
    let n = placed.reads.shape.n;
    let m = placed.reads.shape.m;
    let z = 17 + n;
    tally::tally(placed, &out[17..z], tally);
    let mut flips: u32 = 0;
    for j in 0..m {
        let x = letters::letters_at(tally, j, heterozygous);
        out[17 + n + j] = x.first;
        out[17 + n + m + j] = x.second;
        flips += x.flips;
    }
    flips
}

// The answer block of a table that is filled, and its cost.
pub fn write_answer(table: &Table, heterozygous: bool, scratch: &mut [u32], out: &mut [u8]) -> u32
    requires right { RightColumns (charge_in (mode_of heterozygous)) (matrix_of table.now.listed.reads) table.now.work.now }
    requires tally_room { 4 * table.now.listed.reads.shape.m ≤ length scratch.old }
    requires m_in_bounds { 17 + table.now.listed.reads.shape.n + 2 * table.now.listed.reads.shape.m ≤ length out.old }
    ensures value { result ≡ least_cost (charge_in (mode_of heterozygous)) (matrix_of table.now.listed.reads) }
    ensures out_after { out.new ≡ over (answer (mode_of heterozygous) (matrix_of table.now.listed.reads)) out.old }
{
    let shape = table.listed.reads.shape;
    let e = 17 + shape.n;
    table.write_sides(&mut out[17..e]);
    let f = 4 * shape.m;
    let flips = write_letters(&table.listed.placed(), heterozygous, &mut scratch[..f], out);
    let cost = table.least_last();
    answer::put_head(out, cost, flips, shape.n, shape.m);
    cost
}
