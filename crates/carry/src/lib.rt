// What a column hands over to the next: for each class of its entries, those with one index on the reads that go on, the least.
#![tactic(auto)]

ghost use Rattle.std.specs.Prelude.{◌≡◌, ℕ, ◌+◌, ◌*◌, ◌/◌, ◌≤◌, ◌<◌, min, length, get_or};
ghost use Rattle.meaning.specs.Rule.{least_at};

// Each class has its entry of the one row. A loop: the library's method would have the archive ask for `memmove` from outside.
fn only(row: &[u32], taken: &mut [u32])
    requires { length row.now ≡ length taken.old }
    ensures { (f : ℕ) → f < length taken.old → get_or taken.new f 0 ≡ get_or row.now f 0 }
{
    for (f, x) in taken.iter_mut().enumerate() {
        *x = row[f];
    }
}

// Each class has the lesser of its entries in two rows.
fn lesser(a: &[u32], b: &[u32], taken: &mut [u32])
    requires a_len { length a.now ≡ length taken.old }
    requires b_len { length b.now ≡ length taken.old }
    ensures { (f : ℕ) → f < length taken.old → get_or taken.new f 0 ≡ min (get_or a.now f 0) (get_or b.now f 0) }
{
    for (f, x) in taken.iter_mut().enumerate() {
        *x = a[f].min(b[f]);
    }
}

// Each class keeps the lesser of what it has and of its entry in one row more.
fn keep_lesser(row: &[u32], taken: &mut [u32])
    requires { length row.now ≡ length taken.old }
    ensures { (f : ℕ) → f < length taken.old → get_or taken.new f 0 ≡ min (get_or taken.old f 0) (get_or row.now f 0) }
{
    for (f, x) in taken.iter_mut().enumerate() {
        *x = (*x).min(row[f]);
    }
}

// What the next column takes over: for each class f the least of the entries f, f + classes, ..
pub fn carry(part: &[u32], classes: usize, taken: &mut [u32])
    requires classes_nonzero { (0 < classes) × (classes ≤ length taken.old) }
    requires part_nonzero { (0 < length part.now) × (classes * (length part.now / classes) ≡ length part.now) }
    ensures { (f : ℕ) → f < classes → get_or taken.new f 0
        ≡ least_at classes (length part.now / classes) part.now f }
{
    let kept = &mut taken[..classes];
    if part.len() == classes {
        only(part, kept);
        return;
    }
    // the first two rows at once: a copy of the first would have to be read back
    let (first, others) = part.split_at(classes);
    let (second, more) = others.split_at(classes);
    lesser(first, second, kept);
    for row in more.chunks_exact(classes) {
        keep_lesser(row, kept);
    }
}
