// `judge BLOCK ANSWER` reads a fragment block and a builder's answer from the two files that it is given and prints the verdict's two
// lines, or one that says why it is refused.
#![tactic(auto)]

// Prints the text for this block and this answer.
fn print_verdict(rt: &HostRuntime, block: &[u8], answer: &[u8]) {
    let mut page = [0u8; 128];
    let n = ruling::respond(block, answer, &mut page);
    files::print(rt, b"judge", &page[..n]);
}

// Whether there are two arguments, no fewer and no more.
fn has_two(rt: &HostRuntime) -> bool {
    let mut name = [0u8; 1];
    files::argument(rt, 2, &mut name).is_some() && files::argument(rt, 3, &mut name).is_none()
}

// A byte more than 65,536 tells that a file is too long.
fn main(rt: HostRuntime) {
    if !has_two(&rt) {
        files::say(
            &rt,
            b"judge",
            b"two files are needed",
            b"judge BLOCK ANSWER",
        );
        return;
    }
    let mut room = [0u8; 65537];
    let Some(block) = files::read_named(&rt, b"judge", 1, &mut room) else {
        return;
    };
    let mut room = [0u8; 65537];
    let Some(answer) = files::read_named(&rt, b"judge", 2, &mut room) else {
        return;
    };
    print_verdict(&rt, block, answer);
}
