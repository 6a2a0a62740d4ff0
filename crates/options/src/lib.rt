// What an argument of `phase` asks for.
#![tactic(auto)]

ghost use Rattle.std.specs.Prelude.{◌≡◌, ◌≢◌, MatchOption};
ghost use Rattle.options.specs.Words.{all_het_word, margins_word};
ghost use Rattle.options.specs.Asked.{word_of};

// Without an argument `phase` answers in the general mode; an argument asks for another mode, or for the margins too.
#[derive(Clone, Copy, PartialEq, Eq, Debug)]
pub enum Asked {
    AllHeterozygous,
    Margins,
}

impl Asked {
    // What the word asks for, if it is one of the two that are known.
    pub fn parse(word: &[u8]) -> Option<Asked>
        ensures { MatchOption result
            ((word.now ≢ all_het_word) × (word.now ≢ margins_word))
            (λ asked. word.now ≡ word_of asked) }
    {
        match word {
            b"--all-het" => Some(Asked::AllHeterozygous),
            b"--margins" => Some(Asked::Margins),
            _ => None,
        }
    }
}
