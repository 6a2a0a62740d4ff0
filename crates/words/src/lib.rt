// The line that says a verdict in words.
#![tactic(auto)]

ghost use Rattle.std.specs.Prelude.{◌≡◌, ◌≤◌, length};
ghost use Rattle.lines.specs.Page.{HasRoom, Puts};
ghost use Rattle.words.specs.Words.{verdict_words};

use lines::Page;

// A verdict is a number here: it comes from `velejume::Numbers`.
#[tactic(auto, unfolding(crate::specs::Words::verdict_words))]
fn words_of(number: u32) -> &'static [u8]
    ensures words { result.now ≡ verdict_words number }
    ensures upper_bound { length result.now ≤ 50 }
{
    match number {
        50 => b"malformed\n",
        51 => b"other n or m\n",
        52 => b"a side above 1 or a letter above 2\n",
        53 => b"a - where that side's sums differ\n",
        54 => b"stated cost not the weight of disagreeing entries\n",
        55 => b"not least\n",
        56 => b"least but other sides or letters than ours\n",
        _ => b"ours\n",
    }
}

// Puts the line on the page.
pub fn put_words(page: &mut Page<'_>, number: u32)
    requires { HasRoom page.old 50 }
    ensures { Puts page.old (verdict_words number) page.new }
{
    page.put_bytes(words_of(number));
}
