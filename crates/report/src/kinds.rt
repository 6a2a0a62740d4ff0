// How the trials of a call go through kinds: what a trial does is the caller's.
use crate::lines::Tally;
use cases::kinds::kinds;
use cases::random::Chance;

// So many trials of one kind, and their line.
pub fn of_kind<F: Fn(&mut Chance, &mut Tally)>(
    call: &str,
    name: &str,
    count: usize,
    chance: &mut Chance,
    all: &mut Tally,
    trial: F,
)
    requires { F.IsAlwaysCallable trial }
{
    let mut tally = all.fresh();
    for _ in 0..count {
        trial(chance, &mut tally);
    }
    tally.line(call, name, all);
}

// Generated blocks, kind by kind: the same blocks in every run.
pub fn of_each_kind<F: Fn(&[u8], &mut Chance, &mut Tally)>(call: &str, all: &mut Tally, trial: F)
    requires { F.IsAlwaysCallable trial }
{
    let mut chance = Chance::new(20150601);
    for kind in &kinds() {
        of_kind(
            call,
            kind.name,
            kind.blocks,
            &mut chance,
            all,
            |chance, tally| {
                let block = kind.block(chance);
                trial(block.as_slice(), chance, tally);
            },
        );
    }
}
