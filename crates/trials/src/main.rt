// The cases of documents 01 and 02 that are run, a crate for each call. Prints what was tried and the differences found.
#![tactic(auto)]

use report::lines::Tally;

fn main(rt: HostRuntime) {
    let mut all = Tally::new(rt.stdout());
    phased::run(&mut all);
    margined::run(&mut all);
    converted::run(&mut all);
    judged::run(&mut all);
    all.end();
}
