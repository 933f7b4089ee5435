// The text of a case: the fields of a line.
//
// A line is words with a space between them. The first is the name of a call, and the others are fields, NAME=DIGITS: hex digits, two to a byte
// and eight to a word, with full stops between them where a reader wants some. A number may be written with fewer digits than eight. The
// order of the fields is free, one that is not there is empty, and one that the call does not have is passed over. oracle/README.md has the
// fields of each call.
use primitives::State;
use std::str::from_utf8;

// How long a field can be; its last word is kept free.
const WORDS: usize = 128;

const BYTES: usize = 4 * WORDS;

const DIGITS: usize = 8 * WORDS;

const MOST: usize = DIGITS - 8;

// A field, seen as bytes and seen as words: how many of each there are, one that is not whole among them, and zeros after them.
// Stays: two buffers with a length beside each, for the project has no heap.
#[derive(Clone, Copy)]
pub(crate) struct Part {
    n: usize,
    m: usize,
    bytes: [u8; BYTES],
    words: [u32; WORDS],
}

// How far the reading of a field has come: its digits so far, and the last eight.
#[derive(Clone, Copy)]
struct At {
    digits: usize,
    word: u32,
}

impl At {
    // One byte more: a digit, or none.
    fn more(self, c: u8) -> At {
        match c {
            0..=47 => self,
            58..=63 => self,
            _ => At {
                digits: self.digits % MOST + 1,
                word: (self.word << 4) | ((c % 16) + 9 * (c / 64)) as u32,
            },
        }
    }
}

impl Part {
    // Each digit completes the byte and the word that it stands in. (With no digit yet, it is the free ones at the end.)
    fn put(&mut self, p: At) {
        let d = p.digits % DIGITS + (DIGITS - 1);
        self.bytes[d / 2 % BYTES] = (p.word % 256) as u8;
        self.words[d / 8 % WORDS] = p.word;
    }

    fn read(text: &[u8]) -> Part {
        let mut part = Part {
            n: 0,
            m: 0,
            bytes: [0; BYTES],
            words: [0; WORDS],
        };
        let mut p = At { digits: 0, word: 0 };
        for c in text {
            p = p.more(*c);
            part.put(p);
        }
        let d = p.digits % DIGITS;
        part.n = (d + 1) / 2;
        part.m = (d + 7) / 8;
        part
    }

    pub(crate) fn is_empty(&self) -> bool {
        self.n == 0
    }

    pub(crate) fn bytes(&self) -> &[u8] {
        &self.bytes[..self.n % BYTES]
    }

    pub(crate) fn words(&self) -> &[u32] {
        &self.words[..self.m % WORDS]
    }

    // Lent to a call with its whole length.
    pub(crate) fn lent_bytes(&mut self) -> &mut [u8] {
        let n = self.n % BYTES;
        &mut self.bytes[..n]
    }

    pub(crate) fn lent_words(&mut self) -> &mut [u32] {
        let m = self.m % WORDS;
        &mut self.words[..m]
    }

    // The first four words.
    fn four(&self) -> State {
        let [s0, s1, s2, s3, ..] = self.words;
        State { s0, s1, s2, s3 }
    }
}

// The sixteen bytes of four words.
fn sixteen_of(s: State) -> [u8; 16] {
    ((s.s0 as u128) << 96
        | (s.s1 as u128) << 64
        | (s.s2 as u128) << 32
        | s.s3 as u128).to_be_bytes()
}

#[derive(Clone, Copy)]
pub(crate) struct Line<'a> {
    pub(crate) text: &'a [u8],
}

impl<'a> Line<'a> {
    // The first word, the name of a call.
    pub(crate) fn name(self) -> &'a str {
        let word = match self.text.iter().position(|b| *b == b' ') {
            Some(i) => &self.text[..i],
            None => self.text,
        };
        from_utf8(word).unwrap_or("")
    }

    // ---- what a line tells

    pub(crate) fn field(self, name: &[u8]) -> Part {
        for word in self.text.split(|b| *b == b' ') {
            if let Some(rest) = word.strip_prefix(name) {
                if rest.is_empty() || rest[0] == b'=' {
                    return Part::read(rest);
                }
            }
        }
        Part::read(b"")
    }

    pub(crate) fn four(self, name: &[u8]) -> State {
        self.field(name).four()
    }

    pub(crate) fn number(self, name: &[u8]) -> u32 {
        self.four(name).s0
    }

    pub(crate) fn sixteen(self, name: &[u8]) -> [u8; 16] {
        sixteen_of(self.four(name))
    }

    // The twelve bytes of the first three words.
    pub(crate) fn twelve(self, name: &[u8]) -> [u8; 12] {
        let mut twelve = [0; 12];
        twelve.copy_from_slice(&self.sixteen(name)[..12]);
        twelve
    }

    // ---- what a line says of an answer

    // Whether a field has these words, and no more.
    pub(crate) fn says(self, name: &[u8], got: &[u32]) -> bool {
        self.field(name).words() == got
    }

    pub(crate) fn says_one(self, name: &[u8], got: u32) -> bool {
        self.says(name, &[got])
    }

    pub(crate) fn says_number(self, code: u32) -> bool {
        self.says_one(b"number", code)
    }

    pub(crate) fn says_bytes(self, name: &[u8], got: &[u8]) -> bool {
        self.field(name).bytes() == got
    }

    // Whether these bytes are what was lent, afterwards.
    pub(crate) fn left(self, got: &[u8]) -> bool {
        self.says_bytes(b"left", got)
    }
}
