// The text that `judge` prints for a block and an answer.
#![tactic(auto)]

ghost use Rattle.std.specs.Prelude.{◌≡◌, ◌≤◌, length};
ghost use Rattle.meaning.specs.Call.{over};
ghost use Rattle.ruling.specs.Printed.{printed_verdict};

// The text for this block and this answer, at the start of the page; and how long it is. 12 is not the library's to give: it speaks of
// files. The work room is what the stack holds: 704 columns with 12 active reads.
pub fn respond(block: &[u8], answer: &[u8], page: &mut [u8]) -> usize
    requires { 128 ≤ length page.old }
    ensures value { (result ≡ length (printed_verdict block.now answer.now)) × (result ≤ length page.old) }
    ensures page_after { page.new ≡ over (printed_verdict block.now answer.now) page.old }
{
    if block.len() > 65536 || answer.len() > 65536 {
        return text::write_verdict(12, 65536, page);
    }
    let mut work = [0u32; 1441792];
    let r = velejume::judge(block, answer, &mut work);
    text::write_verdict(r.number, r.second, page)
}
