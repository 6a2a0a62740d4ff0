// Pieces of a printed text: bytes, numbers in decimal, and lines of them.
#![tactic(auto)]

ghost use Rattle.std.specs.Prelude.{◌≡◌, [], ◌∷◌, ◌++◌, map, ◌+◌, ◌*◌, ◌≤◌, ◌<◌, length};
ghost use Rattle.lines.specs.Line.{decimal, mark, line, sides_word, hap1_word, hap2_word, sides_text, numbers_line, run_text};
ghost use Rattle.lines.specs.Page.{HasRoom, Puts};

// A text that is being written: each `put_..` puts its piece where the last one ended.
#[derive(Drop)]
pub struct Page<'a> {
    text: &'a mut [u8],
    at: usize,
}

// The character of a digit.
fn digit(x: u32) -> u8
    requires { x < 10 }
    ensures { result ≡ 48 + x }
{
    b'0' + x as u8
}

// The character of a side or a letter; 2 is no letter.
fn mark_of(x: u8) -> u8
    ensures { result ≡ mark x }
{
    match x {
        0 => b'0',
        1 => b'1',
        _ => b'-',
    }
}

impl<'a> Page<'a> {
    // An empty page over this text.
    pub fn new(text: &'a mut [u8]) -> Page<'a>
        ensures same_text { result.text.ghost_name ≡ text.entry.ghost_name }
        ensures now { result.text.now ≡ text.old }
        ensures at { result.at ≡ 0 }
    {
        Page { text, at: 0 }
    }

    // How much is written.
    pub fn len(&self) -> usize
        ensures { result ≡ self.now.at }
    {
        self.at
    }

    fn put_byte(&mut self, b: u8)
        requires { HasRoom self.old 1 }
        ensures { Puts self.old (b ∷ []) self.new }
    {
        self.text[self.at] = b;
        self.at += 1;
    }

    pub fn put_bytes(&mut self, bytes: &[u8])
        requires { HasRoom self.old (length bytes.now) }
        ensures { Puts self.old bytes.now self.new }
    {
        let end = self.at + bytes.len();
        self.text[self.at..end].copy_from_slice(bytes);
        self.at = end;
    }

    // The sides or the letters, a character each.
    fn put_marks(&mut self, marks: &[u8])
        requires { HasRoom self.old (length marks.now) }
        ensures { Puts self.old (map mark marks.now) self.new }
    {
        for m in marks {
            self.put_byte(mark_of(*m));
        }
    }

    // The digits before the last, then the last.
    fn put_decimal(&mut self, x: u32)
        requires { HasRoom self.old 10 }
        ensures put { Puts self.old (decimal x) self.new }
        ensures upper_bound { self.new.at ≤ self.old.at + 10 }
    {
        if x < 10 {
            self.put_byte(digit(x));
            return;
        }
        self.put_decimal(x / 10);
        self.put_byte(digit(x % 10));
    }

    pub fn put_number_line(&mut self, name: &[u8], x: u32)
        requires { HasRoom self.old (length name.now + 11) }
        ensures put { Puts self.old (line name.now (decimal x)) self.new }
        ensures upper_bound { self.new.at ≤ self.old.at + length name.now + 11 }
    {
        self.put_bytes(name);
        self.put_decimal(x);
        self.put_byte(b'\n');
    }

    fn put_marks_line(&mut self, name: &[u8], marks: &[u8])
        requires { HasRoom self.old (length name.now + length marks.now + 1) }
        ensures put { Puts self.old (line name.now (map mark marks.now)) self.new }
        ensures value { self.new.at ≡ self.old.at + length name.now + length marks.now + 1 }
    {
        self.put_bytes(name);
        self.put_marks(marks);
        self.put_byte(b'\n');
    }

    pub fn put_sides_line(&mut self, sides: &[u8])
        requires { HasRoom self.old (length sides.now + 11) }
        ensures put { Puts self.old (line sides_word (sides_text sides.now)) self.new }
        ensures upper_bound { self.new.at ≤ self.old.at + length sides.now + 11 }
    {
        if sides.is_empty() {
            self.put_bytes(b"sides none\n");
        } else {
            self.put_marks_line(b"sides ", sides);
        }
    }

    // The lines of both haplotypes.
    pub fn put_letters(&mut self, first: &[u8], second: &[u8])
        requires { HasRoom self.old (length first.now + length second.now + 12) }
        ensures put { Puts self.old
            (line hap1_word (map mark first.now) ++ line hap2_word (map mark second.now))
            self.new }
        ensures value { self.new.at ≡ self.old.at + length first.now + length second.now + 12 }
    {
        self.put_marks_line(b"hap1 ", first);
        self.put_marks_line(b"hap2 ", second);
    }

    // The line of a call's two numbers, behind the word for what they are.
    pub fn put_numbers(&mut self, name: &[u8], number: u32, second: u32)
        requires { HasRoom self.old (length name.now + 25) }
        ensures put { Puts self.old (numbers_line name.now number second) self.new }
        ensures upper_bound { self.new.at ≤ self.old.at + length name.now + 25 }
    {
        self.put_bytes(name);
        self.put_decimal(number);
        self.put_number_line(b" at ", second);
    }

    // Numbers in decimal, a blank before each. One loop for this and `put_marks` that takes a closure is no plainer: its contract would
    // have to say what the closure puts and how much room that takes, in more lines than both loops have.
    fn put_run(&mut self, numbers: &[u32])
        requires { HasRoom self.old (11 * length numbers.now) }
        ensures put { Puts self.old (run_text numbers.now) self.new }
        ensures upper_bound { self.new.at ≤ self.old.at + 11 * length numbers.now }
    {
        for x in numbers {
            self.put_byte(b' ');
            self.put_decimal(*x);
        }
    }

    pub fn put_run_line(&mut self, name: &[u8], numbers: &[u32])
        requires { HasRoom self.old (length name.now + 11 * length numbers.now + 1) }
        ensures put { Puts self.old (line name.now (run_text numbers.now)) self.new }
        ensures upper_bound { self.new.at ≤ self.old.at + length name.now + 11 * length numbers.now + 1 }
    {
        self.put_bytes(name);
        self.put_run(numbers);
        self.put_byte(b'\n');
    }
}
