// A line in, a line out: the line program of document 01, all but the reading and writing.
#![tactic(auto)]

ghost use Rattle.std.specs.Prelude.{◌≡◌, ℕ};
ghost use Rattle.text.specs.Written.{written, Adds};
ghost use Rattle.lines.specs.Input.{answer_line, first_line, done_line};
ghost use Rattle.lines.specs.Session.{fresh_reader, next_line, held, kept, fed_by, closing_of};

pub use line_answers::answer;
use text::Text;

// The first line of every output.
pub fn first_line() -> Text
    ensures { result ≡ written first_line }
{
    let mut t = Text::empty();
    t.push_all(b"gift-lines 1\n");
    t
}

// The bytes of a line that has begun, the first 68 of them, and how many lines there were before it.
// Stays: a buffer with its length beside it, for the project has no heap, and `held` and `kept` in specs/Session.antt name both.
#[derive(Clone, Copy)]
pub struct Reader {
    line: [u8; 68],
    count: usize,
    lines: u64,
}

impl Reader {
    pub fn fresh() -> Self
        ensures { result ≡ fresh_reader }
    {
        Reader {
            line: [0; 68],
            count: 0,
            lines: 0,
        }
    }

    fn keep(&mut self, b: u8)
        ensures { self.new ≡ kept self.old b }
    {
        if self.count < 68 {
            self.line[self.count] = b;
            self.count += 1;
        }
    }

    fn next_line(&self) -> u64
        ensures { result ≡ next_line self.now.lines }
    {
        self.lines.saturating_add(1)
    }

    // The answer to the line that was kept, with its newline.
    fn answer_line(&self, n: u64) -> Text
        ensures { result ≡ written (answer_line n (held self.now)) }
    {
        let mut t = answer(n, &self.line[..self.count.min(68)]);
        t.push(b'\n');
        t
    }

    // One byte of input more, and what it leads to.
    pub fn feed(&mut self, b: u8) -> Text
        ensures { fed_by self.old b ≡ record { reader = self.new; text = result } }
    {
        if b != b'\n' {
            self.keep(b);
            return Text::empty();
        }
        self.lines = self.next_line();
        let text = self.answer_line(self.lines);
        self.count = 0;
        text
    }

    // The end of the input.
    pub fn closing(&self) -> Text
        ensures { result ≡ written (closing_of self.now) }
    {
        if self.count == 0 {
            let mut t = Text::empty();
            push_done(&mut t, self.lines);
            return t;
        }
        let n = self.next_line();
        let mut t = self.answer_line(n);
        push_done(&mut t, n);
        t
    }
}

fn push_done(t: &mut Text, n: u64)
    ensures { Adds (done_line n) t.old t.new }
{
    t.push_all(b"done ");
    t.push_decimal(n);
    t.push(b'\n');
}
