// The text that `phase` prints: the five lines of an answer block, with two more of the margins where they are asked for, or the one line of a refusal.
// And that of `judge`: the two lines of a verdict, or the one of a refusal.
#![tactic(auto)]

ghost use Rattle.std.specs.Prelude.{◌≡◌, ◌++◌, ◌+◌, ◌*◌, ◌≤◌, length, drop};
ghost use Rattle.meaning.specs.Numbers.{word};
ghost use Rattle.lines.specs.Page.{HasRoom, Puts};
ghost use Rattle.text.specs.Text.{answer_text, refusal_text, text_of, margins_text, margin_text_of};
ghost use Rattle.text.specs.Verdict.{judged_text};
ghost use Rattle.text.specs.Put.{Whole};

use lines::Page;

fn put_answer(page: &mut Page<'_>, answer: &[u8])
    requires whole { Whole answer.now }
    requires in_bounds { HasRoom page.old 4096 }
    ensures put { Puts page.old (answer_text answer.now) page.new }
    ensures upper_bound { page.new.at ≤ page.old.at + 4096 }
{
    let n = layout::word_at(answer, 13);
    let m = layout::word_at(answer, 15);
    let first = 17 + n;
    let second = first + m;
    let end = second + m;
    page.put_number_line(b"cost ", layout::long_at(answer, 5) as u32);
    page.put_number_line(b"flips ", layout::long_at(answer, 9) as u32);
    page.put_sides_line(&answer[17..first]);
    page.put_letters(&answer[first..second], &answer[second..end]);
}

// The answer, and the margins of both haplotypes.
fn put_margins(page: &mut Page<'_>, answer: &[u8], margins: &[u32])
    requires whole { Whole answer.now }
    requires answer_in_bounds { 2 * word answer.now 15 ≤ length margins.now }
    requires in_bounds { HasRoom page.old 32768 }
    ensures { Puts page.old (margins_text answer.now margins.now) page.new }
{
    let m = layout::word_at(answer, 15);
    let end = m + m;
    put_answer(page, answer);
    page.put_run_line(b"margin1", &margins[..m]);
    page.put_run_line(b"margin2", &margins[m..end]);
}

fn put_refusal(page: &mut Page<'_>, number: u32, second: u32)
    requires { HasRoom page.old 33 }
    ensures { Puts page.old (refusal_text number second) page.new }
{
    page.put_numbers(b"refused ", number, second);
}

// What `phase` prints for a call's two numbers and its answer block. They are numbers as `velejume::Numbers` has them: 0 accepts.
#[tactic(auto, unfolding(crate::specs::Text::text_of))]
fn put_text(page: &mut Page<'_>, number: u32, second: u32, answer: &[u8])
    requires whole { number ≡ 0 → Whole answer.now }
    requires in_bounds { HasRoom page.old 4096 }
    ensures { Puts page.old (text_of number second answer.now) page.new }
{
    if number == 0 {
        put_answer(page, answer);
    } else {
        put_refusal(page, number, second);
    }
}

// The same with the margins of both haplotypes.
#[tactic(auto, unfolding(crate::specs::Text::margin_text_of))]
fn put_margin_text(page: &mut Page<'_>, number: u32, second: u32, answer: &[u8], margins: &[u32])
    requires whole { number ≡ 0 → Whole answer.now }
    requires answer_in_bounds { number ≡ 0 → 2 * word answer.now 15 ≤ length margins.now }
    requires in_bounds { HasRoom page.old 32768 }
    ensures { Puts page.old (margin_text_of number second answer.now margins.now) page.new }
{
    if number == 0 {
        put_margins(page, answer, margins);
    } else {
        put_refusal(page, number, second);
    }
}

// What `judge` prints for a judging's two numbers, as `velejume::Numbers` has them: verdicts are 50 and above, refusals below.
fn put_verdict(page: &mut Page<'_>, number: u32, second: u32)
    requires { HasRoom page.old 128 }
    ensures { Puts page.old (judged_text number second) page.new }
{
    if number < 50 {
        put_refusal(page, number, second);
        return;
    }
    page.put_numbers(b"verdict ", number, second);
    words::put_words(page, number);
}

// Writes from the front of `text` what `phase` prints for a call's two numbers and its answer block, and answers its length.
pub fn write_text(number: u32, second: u32, answer: &[u8], text: &mut [u8]) -> usize
    requires whole { number ≡ 0 → Whole answer.now }
    requires in_bounds { 4096 ≤ length text.old }
    ensures value { result ≡ length (text_of number second answer.now) }
    ensures upper_bound { result ≤ length text.old }
    ensures text_after { text.new
        ≡ text_of number second answer.now ++ drop (length (text_of number second answer.now)) text.old }
{
    let mut page = Page::new(text);
    put_text(&mut page, number, second, answer);
    page.len()
}

// The same with the margins of both haplotypes.
pub fn write_margins(
    number: u32,
    second: u32,
    answer: &[u8],
    margins: &[u32],
    text: &mut [u8],
) -> usize
    requires whole { number ≡ 0 → Whole answer.now }
    requires answer_in_bounds { number ≡ 0 → 2 * word answer.now 15 ≤ length margins.now }
    requires in_bounds { 32768 ≤ length text.old }
    ensures value { result ≡ length (margin_text_of number second answer.now margins.now) }
    ensures upper_bound { result ≤ length text.old }
    ensures text_after { text.new
        ≡ margin_text_of number second answer.now margins.now
        ++ drop (length (margin_text_of number second answer.now margins.now)) text.old }
{
    let mut page = Page::new(text);
    put_margin_text(&mut page, number, second, answer, margins);
    page.len()
}

// Writes from the front of `text` what `judge` prints for a judging's two numbers, and answers its length.
pub fn write_verdict(number: u32, second: u32, text: &mut [u8]) -> usize
    requires { 128 ≤ length text.old }
    ensures value { result ≡ length (judged_text number second) }
    ensures upper_bound { result ≤ length text.old }
    ensures text_after { text.new ≡ judged_text number second ++ drop (length (judged_text number second)) text.old }
{
    let mut page = Page::new(text);
    put_verdict(&mut page, number, second);
    page.len()
}
