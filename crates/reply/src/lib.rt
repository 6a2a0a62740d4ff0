// The text that `phase` prints for an input.
#![tactic(auto)]

ghost use Rattle.std.specs.Prelude.{◌≡◌, ◌≤◌, length};
ghost use Rattle.meaning.specs.Call.{over};
ghost use Rattle.text.specs.Text.{refusal_text};
ghost use Rattle.reply.specs.Asked.{page_room, printed_for};

use options::Asked;

// The most bytes of standard input that are taken.
const LONGEST: usize = 65536;

// 12 is not the library's to give: it speaks of standard input.
fn too_long(page: &mut [u8]) -> usize
    requires { 4096 ≤ length page.old }
    ensures value { (result ≡ length (refusal_text 12 65536)) × (result ≤ length page.old) }
    ensures page_after { page.new ≡ over (refusal_text 12 65536) page.old }
{
    let none = [0u8; 17];
    text::write_text(12, 65536, &none, page)
}

// The text of what is asked for of this input, at the start of the page; and how long it is.
pub fn respond(input: &[u8], asked: Option<Asked>, page: &mut [u8]) -> usize
    requires { page_room asked ≤ length page.old }
    ensures value { (result ≡ length (printed_for asked input.now)) × (result ≤ length page.old) }
    ensures page_after { page.new ≡ over (printed_for asked input.now) page.old }
{
    if input.len() > LONGEST {
        return too_long(page);
    }
    let mut work = [0u32; 16384];
    let mut out = [0u8; 4096];
    match asked {
        None => {
            let r = velejume::phase(input, &mut work, &mut out);
            text::write_text(r.number, r.second, &out, page)
        }
        Some(Asked::AllHeterozygous) => {
            let r = velejume::phase_heterozygous(input, &mut work, &mut out);
            text::write_text(r.number, r.second, &out, page)
        }
        Some(Asked::Margins) => {
            let mut margins = [0u32; 2048];
            let r = velejume::phase_margins(input, &mut work, &mut out, &mut margins);
            text::write_margins(r.number, r.second, &out, &margins, page)
        }
    }
}
