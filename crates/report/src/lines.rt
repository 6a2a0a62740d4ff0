// Counts, and the lines that are printed of them.
use std::fmt;
use std::fmt::Display;
use std::io::Stdout;

// How many calls gave each number, a refusal or a verdict, at the place of the number; how many blocks were converted, how many calls were
// tried and how many differences were found. What is told of them is printed on `out`; what cannot be written is left out.
#[derive(Clone, Copy)]
pub struct Tally {
    counts: [usize; 64],
    converted: usize,
    tried: usize,
    differences: usize,
    out: Stdout,
}

impl Tally {
    // Nothing counted yet.
    pub fn new(out: Stdout) -> Tally {
        Tally {
            counts: [0; 64],
            converted: 0,
            tried: 0,
            differences: 0,
            out,
        }
    }

    // The same, for counts that are told where these are.
    pub fn fresh(&self) -> Tally {
        Tally::new(self.out)
    }

    // One more call, which gave this number.
    pub fn count(&mut self, number: usize) {
        if let Some(count) = self.counts.get_mut(number) {
            *count = count.wrapping_add(1);
        }
        self.tried = self.tried.wrapping_add(1);
    }

    // One more call, which converted a block.
    pub fn count_converted(&mut self) {
        self.converted = self.converted.wrapping_add(1);
        self.tried = self.tried.wrapping_add(1);
    }

    // One more difference, of the call that was tried last, and its line, above that of its kind: the first eight get one.
    pub fn differs<W: Display + Drop, D: Display + Drop>(
        &mut self,
        what: W,
        found: D,
        expected: D,
    ) {
        self.differences = self.differences.wrapping_add(1);
        if self.differences <= 8 {
            let tried = self.tried;
            let _ = println!(self.out; "call {tried}: {what} is {found}, not {expected}");
        }
    }

    // The counts of one kind of trial go to those of all.
    fn add(&mut self, kind: &Tally) {
        for (count, more) in self.counts.iter_mut().zip(&kind.counts) {
            *count = count.wrapping_add(*more);
        }
        self.converted = self.converted.wrapping_add(kind.converted);
        self.tried = self.tried.wrapping_add(kind.tried);
        self.differences = self.differences.wrapping_add(kind.differences);
    }

    // The line of one kind of trials of a call, whose counts go to those of all.
    pub fn line(&self, call: &str, name: &str, all: &mut Tally) {
        let _ = println!(self.out; "{call}{name}: {self}");
        all.add(self);
    }

    // The last lines.
    pub fn end(&self) {
        let differences = self.differences;
        let _ = println!(self.out; "in all: {self}\ndifferences {differences}");
    }
}

// What the calls that gave a number were told.
#[derive(Clone, Copy)]
struct Outcome(usize);

impl Display for Outcome {
    fn fmt<W: fmt::Write>(&self, f: &mut fmt::Formatter<W>) -> fmt::Result {
        let number = self.0;
        match number {
            0 => write!(f, "accepted"),
            1..50 => write!(f, "refused by {number}"),
            _ => write!(f, "judged {number}"),
        }
    }
}

impl Display for Tally {
    fn fmt<W: fmt::Write>(&self, f: &mut fmt::Formatter<W>) -> fmt::Result {
        let Tally {
            converted,
            tried,
            differences,
            ..
        } = *self;
        write!(f, "{tried} tried")?;
        for (number, count) in self.counts.iter().enumerate() {
            if *count > 0 {
                let outcome = Outcome(number);
                write!(f, ", {count} {outcome}")?;
            }
        }
        if converted > 0 {
            write!(f, ", {converted} converted")?;
        }
        write!(f, ", differences {differences}")
    }
}
