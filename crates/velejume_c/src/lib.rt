// The public calls for C. The number is returned, the second number goes to where `second` points.
#![tactic(auto)]

ghost use Rattle.std.specs.Prelude.{◌≡◌};
ghost use Rattle.meaning.specs.Call.{call, heterozygous_call};
ghost use Rattle.meaning.specs.Margins.{margin_call};
ghost use Rattle.meaning.specs.Judge.{judging};
ghost use Rattle.meaning.specs.Convert.{converting};

// `velejume::phase` for C.
#[unsafe(no_mangle)]
pub extern "C" fn velejume_phase(
    block: &[u8],
    work: &mut [u32],
    out: &mut [u8],
    second: &mut u32,
) -> u32
    ensures value { result ≡ (call block.now work.old out.old).number }
    ensures second_after { second.new ≡ (call block.now work.old out.old).second }
    ensures work_after { work.new ≡ (call block.now work.old out.old).work }
    ensures out_after { out.new ≡ (call block.now work.old out.old).out }
{
    let r = velejume::phase(block, work, out);
    *second = r.second;
    r.number
}

// `velejume::phase_heterozygous` for C.
#[unsafe(no_mangle)]
pub extern "C" fn velejume_phase_heterozygous(
    block: &[u8],
    work: &mut [u32],
    out: &mut [u8],
    second: &mut u32,
) -> u32
    ensures value { result ≡ (heterozygous_call block.now work.old out.old).number }
    ensures second_after { second.new ≡ (heterozygous_call block.now work.old out.old).second }
    ensures work_after { work.new ≡ (heterozygous_call block.now work.old out.old).work }
    ensures out_after { out.new ≡ (heterozygous_call block.now work.old out.old).out }
{
    let h = velejume::phase_heterozygous(block, work, out);
    *second = h.second;
    h.number
}

// `velejume::phase_margins` for C.
#[unsafe(no_mangle)]
pub extern "C" fn velejume_phase_margins(
    block: &[u8],
    work: &mut [u32],
    out: &mut [u8],
    margins: &mut [u32],
    second: &mut u32,
) -> u32
    ensures value { result ≡ (margin_call block.now work.old out.old margins.old).number }
    ensures second_after { second.new ≡ (margin_call block.now work.old out.old margins.old).second }
    ensures work_after { work.new ≡ (margin_call block.now work.old out.old margins.old).work }
    ensures out_after { out.new ≡ (margin_call block.now work.old out.old margins.old).out }
    ensures margins_after { margins.new ≡ (margin_call block.now work.old out.old margins.old).margins }
{
    let m = velejume::phase_margins(block, work, out, margins);
    *second = m.second;
    m.number
}

// `velejume::judge` for C.
#[unsafe(no_mangle)]
pub extern "C" fn velejume_judge(
    block: &[u8],
    answer: &[u8],
    work: &mut [u32],
    second: &mut u32,
) -> u32
    ensures value { result ≡ (judging block.now answer.now work.old).number }
    ensures second_after { second.new ≡ (judging block.now answer.now work.old).second }
    ensures work_after { work.new ≡ (judging block.now answer.now work.old).work }
{
    let j = velejume::judge(block, answer, work);
    *second = j.second;
    j.number
}

// `velejume::convert` for C.
#[unsafe(no_mangle)]
pub extern "C" fn velejume_convert(block: &[u8], out: &mut [u8], second: &mut u32) -> u32
    ensures value { result ≡ (converting block.now out.old).number }
    ensures second_after { second.new ≡ (converting block.now out.old).second }
    ensures out_after { out.new ≡ (converting block.now out.old).out }
{
    let c = velejume::convert(block, out);
    *second = c.second;
    c.number
}
