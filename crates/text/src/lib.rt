// A short text in a record: bytes, decimal and hex digits pushed behind each other.
#![tactic(auto)]

ghost use Rattle.std.specs.Prelude.{◌≡◌, ◌∷◌, [], ◌<◌, get_or};
ghost use Rattle.text.specs.Hex.{hex_digits, hex_of};
ghost use Rattle.text.specs.Decimal.{decimal_of};
ghost use Rattle.text.specs.Written.{written, shown, Adds};

// A text of up to 64 bytes.
// Stays: a buffer with its length beside it, for the project has no heap, and `written` and `shown` in specs/Written.antt name both.
#[derive(Clone, Copy)]
pub struct Text {
    bytes: [u8; 64],
    count: usize,
}

impl Text {
    pub fn empty() -> Self
        ensures { result ≡ written [] }
    {
        Text {
            bytes: [0; 64],
            count: 0,
        }
    }

    pub fn as_bytes(&self) -> &[u8]
        ensures { result.now ≡ shown self.now }
    {
        &self.bytes[..self.count.min(64)]
    }

    // One byte more; a full text stays as it is.
    pub fn push(&mut self, b: u8)
        ensures { Adds (b ∷ []) self.old self.new }
    {
        if self.count < 64 {
            self.bytes[self.count] = b;
            self.count += 1;
        }
    }

    pub fn push_all(&mut self, bs: &[u8])
        ensures { Adds bs.now self.old self.new }
    {
        for b in bs {
            self.push(*b);
        }
    }

    pub fn push_decimal(&mut self, n: u64)
        ensures { Adds (decimal_of n) self.old self.new }
    {
        if 10 <= n {
            self.push_decimal(n / 10);
        }
        self.push(b'0' + (n % 10) as u8);
    }

    pub fn push_byte(&mut self, b: u8)
        ensures { Adds (hex_of (b ∷ [])) self.old self.new }
    {
        self.push(hex_digit(b / 16));
        self.push(hex_digit(b % 16));
    }

    // Stays: a loop beside that of `push_all`, since the new form is no plainer: a third function would take `push` or `push_byte` as a closure.
    pub fn push_hex(&mut self, bs: &[u8])
        ensures { Adds (hex_of bs.now) self.old self.new }
    {
        for b in bs {
            self.push_byte(*b);
        }
    }
}

fn hex_digit(d: u8) -> u8
    requires { d < 16 }
    ensures { result ≡ get_or hex_digits d 0 }
{
    b"0123456789abcdef"[d as usize]
}
