// `phase` reads a fragment block from standard input and prints five lines, or one that says why it is refused. With `--all-het` the two
// haplotypes differ at every column; with `--margins` two more lines tell how sure each letter is.
#![tactic(auto)]

use options::Asked;

// Says which argument is not known.
fn unknown_argument(rt: &HostRuntime, name: &[u8]) {
    files::say(
        rt,
        b"phase",
        name,
        b"unknown argument; usage: phase [--all-het | --margins] < BLOCK",
    );
}

// Prints the text of what is asked for of this input.
fn print_text(rt: &HostRuntime, input: &[u8], asked: Option<Asked>) {
    let mut page = [0u8; 32768];
    let n = reply::respond(input, asked, &mut page);
    files::print(rt, b"phase", &page[..n]);
}

// Reads the block and prints what is asked for. A byte more than 65,536 tells that the input is too long.
fn phase(rt: &HostRuntime, asked: Option<Asked>) {
    let mut room = [0u8; 65537];
    if let Some(input) = files::read_input(rt, b"phase", &mut room) {
        print_text(rt, input, asked);
    }
}

// Without arguments in the general mode, with `--all-het` alone in the all-heterozygous one, with `--margins` alone with the margins.
fn main(rt: HostRuntime) {
    let mut room = [0u8; 4096];
    let Some(word) = files::argument(&rt, 1, &mut room) else {
        phase(&rt, None);
        return;
    };
    let Some(asked) = Asked::parse(word) else {
        unknown_argument(&rt, word);
        return;
    };
    if let Some(other) = files::argument(&rt, 2, &mut room) {
        unknown_argument(&rt, other);
        return;
    }
    phase(&rt, Some(asked));
}
