// The answer to one line: whether it is good, and what its letter asks for.
#![tactic(auto)]

ghost use Rattle.std.specs.Prelude.{◌≡◌, true, ◌+◌, ◌*◌, ◌<◌, length, SomeIff};
ghost use Rattle.text.specs.Hex.{value_of, all_hex, bytes_of};
ghost use Rattle.text.specs.Written.{written};
ghost use Rattle.line_answers.specs.Line.{words_text, response, bad_line, answer_of};
ghost use Rattle.line_answers.specs.Asked.{Names, code_of, Asks};

use gift128::{decrypt_by_key, encrypt_by_key, one_round};
use packing::{NUMBER, packing};
use primitives::State;
use text::Text;

// What a hex digit stands for.
fn digit(c: u8) -> Option<u8>
    ensures { SomeIff result (value_of c < 16) (value_of c) }
{
    match c {
        b'0'..=b'9' => Some(c - b'0'),
        b'a'..=b'f' => Some(c - b'a' + 10),
        _ => None,
    }
}

// Two hex digits to a byte.
fn sixteen_bytes(text: &[u8]) -> Option<[u8; 16]>
    requires { length text.now ≡ 32 }
    ensures { SomeIff result (all_hex text.now ≡ true) (bytes_of text.now) }
{
    let mut out = [0; 16];
    // Stays: tried `out.iter_mut().zip(text.chunks_exact(2))`, whose invariant cannot name `out`, so that the proof did not close.
    for i in 0..16 {
        out[i] = digit(text[2 * i])? * 16 + digit(text[2 * i + 1])?;
    }
    Some(out)
}

// What is asked of a key and a block.
#[derive(Clone, Copy)]
enum Letter {
    Encrypt,
    Decrypt,
    OneRound,
    Pack,
    PlainEncrypt,
    PlainDecrypt,
}

// A byte that asks for nothing.
#[derive(Drop)]
struct NoLetter;

impl TryFrom<u8> for Letter {
    type Error = NoLetter;

    ghost try_from_gives = { Names };

    fn try_from(c: u8) -> Result<Letter, NoLetter> {
        match c {
            b'E' => Ok(Letter::Encrypt),
            b'D' => Ok(Letter::Decrypt),
            b'R' => Ok(Letter::OneRound),
            b'P' => Ok(Letter::Pack),
            b'F' => Ok(Letter::PlainEncrypt),
            b'G' => Ok(Letter::PlainDecrypt),
            _ => Err(NoLetter),
        }
    }
}

fn words_text(s: State) -> Text
    ensures { result ≡ written (words_text s.s0 s.s1 s.s2 s.s3) }
{
    let mut t = Text::empty();
    t.push_hex(&s.s0.to_be_bytes());
    t.push(b' ');
    t.push_hex(&s.s1.to_be_bytes());
    t.push(b' ');
    t.push_hex(&s.s2.to_be_bytes());
    t.push(b' ');
    t.push_hex(&s.s3.to_be_bytes());
    t
}

// A good line.
#[derive(Clone, Copy)]
struct Request {
    letter: Letter,
    key: [u8; 16],
    block: [u8; 16],
}

impl Request {
    fn of_line(line: &[u8]) -> Option<Request>
        ensures { Asks line.now result }
    {
        if line.len() != 67 || line[1] != b' ' || line[34] != b' ' {
            return None;
        }
        let Ok(letter) = Letter::try_from(line[0]) else {
            return None;
        };
        let key = sixteen_bytes(&line[2..34])?;
        let block = sixteen_bytes(&line[35..67])?;
        Some(Request { letter, key, block })
    }

    // The plain engine's letters are F and G. Lengths are right, so that no call refuses.
    fn response(self) -> Text
        ensures { result ≡ written (response (code_of self.letter) self.key self.block) }
    {
        let key = self.key;
        let mut block = self.block;
        match self.letter {
            Letter::Encrypt => {
                let _ = encrypt_by_key(NUMBER, &key, &mut block);
            }
            Letter::Decrypt => {
                let _ = decrypt_by_key(NUMBER, &key, &mut block);
            }
            Letter::OneRound => {
                let _ = one_round(&key, &mut block);
            }
            Letter::Pack => return words_text(packing(NUMBER, &block)),
            Letter::PlainEncrypt => {
                let _ = plain::encrypt_by_key(&key, &mut block);
            }
            Letter::PlainDecrypt => {
                let _ = plain::decrypt_by_key(&key, &mut block);
            }
        }
        let mut t = Text::empty();
        t.push_hex(&block);
        t
    }
}

fn bad_line(n: u64) -> Text
    ensures { result ≡ written (bad_line n) }
{
    let mut t = Text::empty();
    t.push_all(b"bad line ");
    t.push_decimal(n);
    t
}

// The answer to a line, by its number, without the newline.
pub fn answer(n: u64, line: &[u8]) -> Text
    ensures { result ≡ written (answer_of n line.now) }
{
    match Request::of_line(line) {
        Some(request) => request.response(),
        None => bad_line(n),
    }
}
