// What a person reads of two bundles, in pieces that are laid in a lent buffer: a line for each id that differs, and a line that counts; or each refused bundle's number.
#![tactic(auto)]

ghost use Rattle.std.specs.Prelude.{◌≡◌, ◌++◌, ◌∷◌, [], ◌+◌, ◌*◌, ◌≤◌, get_or, take};
ghost use Rattle.published.specs.Bytes.{from_bytes};
ghost use Rattle.text.specs.Decimal.{decimal_of};
ghost use Rattle.text.specs.Written.{shown};
ghost use Rattle.bundle_format.specs.Reader.{value, meant};
ghost use Rattle.differ_text.specs.Rendered.{plain, escaped_byte, escaped, text_word, side_text, line_text, closing_line, refusal_line, refusal_lines};
ghost use Rattle.differ_text.specs.Pieces.{told_at, line_at, piece_of, Lays};
ghost use Rattle.differ_text.specs.Puts.{Puts};

use bundle_format::{Kind, State, Told};
use differ::Compared;
use text::Text;

// How long a buffer must be, so that no piece is cut.
pub const LINE_MOST: usize = 2080;

// A text that is laid in a lent buffer: `at` bytes of it are there.
#[derive(Drop)]
pub struct Page<'a> {
    out: &'a mut [u8],
    at: usize,
}

impl<'a> Page<'a> {
    pub fn new(out: &'a mut [u8]) -> Page<'a>
        ensures same_reference { result.out.ghost_name ≡ out.entry.ghost_name }
        ensures laid { Lays [] out.old result.at result.out.now }
    {
        Page { out, at: 0 }
    }

    // How many bytes of the text are there.
    pub fn len(&self) -> usize
        ensures { result ≡ self.now.at }
    {
        self.at
    }

    // A byte more, if there is room.
    pub fn put(&mut self, b: u8)
        ensures { Puts (b ∷ []) self.old self.new }
    {
        if self.at < self.out.len() {
            self.out[self.at] = b;
            self.at += 1;
        }
    }

    // Stays: a loop like that of `Text::push_all`, since the new form is no plainer: a trait of both types with a law of its own would be longer than both.
    pub fn put_all(&mut self, bs: &[u8])
        ensures { Puts bs.now self.old self.new }
    {
        for b in bs {
            self.put(*b);
        }
    }

    fn put_text(&mut self, t: Text)
        ensures { Puts (shown t) self.old self.new }
    {
        self.put_all(t.as_bytes());
    }

    pub fn put_decimal(&mut self, n: u64)
        ensures { Puts (decimal_of n) self.old self.new }
    {
        let mut digits = Text::empty();
        digits.push_decimal(n);
        self.put_text(digits);
    }

    // ---- an answer

    fn put_escaped(&mut self, b: u8)
        ensures { Puts (escaped_byte b) self.old self.new }
    {
        if is_plain(b) {
            self.put(b);
            return;
        }
        let mut digits = Text::empty();
        digits.push_all(b"\\x");
        digits.push_byte(b);
        self.put_text(digits);
    }

    fn put_body(&mut self, body: &[u8])
        ensures { Puts (escaped body.now) self.old self.new }
    {
        for b in body {
            self.put_escaped(*b);
        }
    }

    // The number of the first eight bytes, behind its kind.
    fn put_number(&mut self, kind: &[u8], body: &[u8])
        ensures { Puts (kind.now ++ decimal_of (from_bytes (take 8 body.now))) self.old self.new }
    {
        self.put_all(kind);
        self.put_decimal(number(body));
    }

    fn put_quoted(&mut self, body: &[u8])
        ensures { Puts (text_word ++ escaped body.now ++ (34 ∷ [])) self.old self.new }
    {
        self.put_all(b"text \"");
        self.put_body(body);
        self.put(b'"');
    }

    fn put_value(&mut self, kind: u32, body: &[u8])
        ensures { Puts (side_text (value kind body.now)) self.old self.new }
    {
        match Kind::try_from(kind) {
            Ok(Kind::Flag) => self.put_number(b"flag ", body),
            Ok(Kind::Number) => self.put_number(b"number ", body),
            Ok(Kind::Text) => self.put_quoted(body),
            Err(_) => self.put_quoted(body),
        }
    }

    pub fn put_side(&mut self, told: Told, bundle: &[u8])
        ensures { Puts (side_text (meant bundle.now told)) self.old self.new }
    {
        match State::try_from(told.state) {
            Ok(State::Value) => {
                let start = (told.at as usize).min(bundle.len());
                let end = (start + told.len as usize).min(bundle.len());
                self.put_value(told.kind, &bundle[start..end]);
            }
            Ok(State::Unknown) => self.put_all(b"unknown"),
            Ok(State::Absent) => self.put_all(b"absent"),
            Ok(State::Refused) => self.put_all(b"refused"),
            Err(_) => self.put_all(b"refused"),
        }
    }

    // ---- the pieces

    fn put_line(&mut self, rows: &[u32], k: u32, first: &[u8], second: &[u8])
        ensures { Puts (line_text first.now second.now (line_at rows.now (9 * k))) self.old self.new }
    {
        let p = 9 * k as usize;
        self.put_decimal(number_at(rows, p) as u64);
        self.put_all(b": ");
        self.put_side(told_at(rows, p + 1), first);
        self.put_all(b" | ");
        self.put_side(told_at(rows, p + 5), second);
        self.put(b'\n');
    }

    fn put_closing(&mut self, count: u32)
        ensures { Puts (closing_line count) self.old self.new }
    {
        self.put_all(b"differing settings: ");
        self.put_decimal(count as u64);
        self.put(b'\n');
    }

    // A bundle's refusal, if it is refused.
    fn put_refusal(&mut self, words: &[u8], code: u32)
        ensures { Puts (refusal_line words.now code) self.old self.new }
    {
        if code == 0 {
            return;
        }
        self.put_all(words);
        self.put_decimal(code as u64);
        self.put(b'\n');
    }
}

fn is_plain(b: u8) -> bool
    ensures { result ≡ plain b }
{
    match b {
        b'"' => false,
        b'\\' => false,
        32..=126 => true,
        _ => false,
    }
}

// The number of the first eight bytes.
fn number(body: &[u8]) -> u64
    ensures { result ≡ from_bytes (take 8 body.now) }
{
    let mut n: u64 = 0;
    let first = &body[..body.len().min(8)];
    for b in first {
        n = n * 256 + *b as u64;
    }
    n
}

fn number_at(rows: &[u32], i: usize) -> u32
    ensures { result ≡ get_or rows.now i 0 }
{
    rows.get(i).copied().unwrap_or(0)
}

fn told_at(rows: &[u32], p: usize) -> Told
    requires { p + 3 ≤ 18446744073709551615 }
    ensures { result ≡ told_at rows.now p }
{
    Told {
        state: number_at(rows, p),
        id: 0,
        kind: number_at(rows, p + 1),
        at: number_at(rows, p + 2),
        len: number_at(rows, p + 3),
    }
}

// Piece k of what is printed of two bundles, by what comparing them gave: of the rows each has a line, and then comes a last piece. All of it, or as much as fits, is laid in the
// buffer from its start; the number of its bytes there is told.
pub fn piece(
    compared: Compared,
    rows: &[u32],
    k: u32,
    first: &[u8],
    second: &[u8],
    out: &mut [u8],
) -> usize
    ensures { Lays (piece_of compared rows.now first.now second.now k) out.old result out.new }
{
    let mut page = Page::new(out);
    if compared.first != 0 || compared.second != 0 {
        page.put_refusal(b"first.bundle: refusal ", compared.first);
        page.put_refusal(b"second.bundle: refusal ", compared.second);
    } else if k < compared.count {
        page.put_line(rows, k, first, second);
    } else {
        page.put_closing(compared.count);
    }
    page.len()
}
