// The calls of the cipher and of its parts, by their names: the fields of each are in oracle/README.md. A line that tells no order tells order 0.
//
// A field may hold any number of bytes or words, and all are lent: what a call refuses is a case too.
use crate::text::Line;
use answers::Refusal;
use gift128::Gift128;
use primitives::State;

// ---- calls that change bytes

fn unpacked(line: Line, lent: &mut [u8]) -> Result<(), Refusal> {
    packing::unpacking(line.number(b"order"), line.four(b"args"), lent);
    Ok(())
}

fn instance(line: Line) -> Gift128 {
    Gift128::new(line.field(b"key").bytes()).unwrap_or_default()
}

// What is lent to them is lent with its whole length, and looked at so.
fn changed<F: Fn(&mut [u8]) -> Result<(), Refusal>>(line: Line, call: F) -> bool
    requires { F.IsAlwaysCallable call }
{
    let mut lent = line.field(b"lent");
    let answer = call(lent.lent_bytes());
    line.left(lent.bytes()) && line.says_number(answers::number(answer))
}

fn by_key(name: &str, line: Line) -> Option<bool> {
    match name {
        "encrypt_by_key" => Some(changed(line, |out| {
            gift128::encrypt_by_key(line.number(b"order"), line.field(b"key").bytes(), out)
        })),
        "decrypt_by_key" => Some(changed(line, |out| {
            gift128::decrypt_by_key(line.number(b"order"), line.field(b"key").bytes(), out)
        })),
        "one_round" => Some(changed(
            line,
            |out| gift128::one_round(line.field(b"key").bytes(), out),
        )),
        "encrypt_blocks" => Some(changed(line, |out| {
            gift128::encrypt_blocks(
                line.number(b"order"),
                line.field(b"key").bytes(),
                line.field(b"input").bytes(),
                out,
            )
        })),
        "decrypt_blocks" => Some(changed(line, |out| {
            gift128::decrypt_blocks(
                line.number(b"order"),
                line.field(b"key").bytes(),
                line.field(b"input").bytes(),
                out,
            )
        })),
        "encrypt_block" => Some(changed(line, |out| {
            instance(line).encrypt_block(line.number(b"order"), out)
        })),
        "decrypt_block" => Some(changed(line, |out| {
            instance(line).decrypt_block(line.number(b"order"), out)
        })),
        _ => None,
    }
}

fn by_words(name: &str, line: Line) -> Option<bool> {
    match name {
        "encrypt_by_words" => Some(changed(line, |out| {
            gift128::encrypt_by_words(line.number(b"order"), line.field(b"words").words(), out)
        })),
        "decrypt_by_words" => Some(changed(line, |out| {
            gift128::decrypt_by_words(line.number(b"order"), line.field(b"words").words(), out)
        })),
        "encrypt_blocks_by_words" => Some(changed(line, |out| {
            gift128::encrypt_blocks_by_words(
                line.number(b"order"),
                line.field(b"words").words(),
                line.field(b"input").bytes(),
                out,
            )
        })),
        "decrypt_blocks_by_words" => Some(changed(line, |out| {
            gift128::decrypt_blocks_by_words(
                line.number(b"order"),
                line.field(b"words").words(),
                line.field(b"input").bytes(),
                out,
            )
        })),
        "unpacking" => Some(changed(line, |out| unpacked(line, out))),
        _ => None,
    }
}

// ---- calls that change words

// What is lent to them is lent as words.
fn fills<F: Fn(&mut [u32]) -> Result<(), Refusal>>(line: Line, call: F) -> bool
    requires { F.IsAlwaysCallable call }
{
    let mut lent = line.field(b"lent");
    let answer = call(lent.lent_words());
    line.says(b"left", lent.words()) && line.says_number(answers::number(answer))
}

// The pairs that words stand for, and the words of pairs.
fn expands(name: &str, line: Line) -> Option<bool> {
    match name {
        "precompute_rkeys" => Some(fills(line, |out| {
            key_schedule::precompute_rkeys(line.field(b"key").bytes(), out)
        })),
        "pairs" => Some(fills(
            line,
            |out| round_words::pairs(line.field(b"words").words(), out),
        )),
        "words" => Some(fills(
            line,
            |out| round_words::words(line.field(b"pairs").words(), out),
        )),
        _ => None,
    }
}

fn new(line: Line) -> bool {
    let key = line.field(b"key");
    let made = Gift128::new(key.bytes());
    let cipher = made.unwrap_or_default();
    line.says(b"gives", &cipher.k) && line.says_number(answers::number(made))
}

// ---- calls that give a word

fn args(line: Line) -> State {
    line.four(b"args")
}

fn low(w: u32) -> u8 {
    (w % 256) as u8
}

// A number of two words.
fn wide(s: State) -> usize {
    (s.s0 as usize) << 32 | (s.s1 as usize)
}

fn rotated(name: &str, line: Line) -> Option<u32> {
    match name {
        "byte_ror_2" => Some(primitives::byte_ror_2(args(line).s0)),
        "byte_ror_4" => Some(primitives::byte_ror_4(args(line).s0)),
        "byte_ror_6" => Some(primitives::byte_ror_6(args(line).s0)),
        "half_ror_4" => Some(primitives::half_ror_4(args(line).s0)),
        "half_ror_8" => Some(primitives::half_ror_8(args(line).s0)),
        "half_ror_12" => Some(primitives::half_ror_12(args(line).s0)),
        "nibble_ror_1" => Some(primitives::nibble_ror_1(args(line).s0)),
        "nibble_ror_2" => Some(primitives::nibble_ror_2(args(line).s0)),
        "nibble_ror_3" => Some(primitives::nibble_ror_3(args(line).s0)),
        _ => None,
    }
}

fn big(s: State) -> u32 {
    primitives::u32big(low(s.s0), low(s.s1), low(s.s2), low(s.s3))
}

fn word(name: &str, line: Line) -> Option<u32> {
    match name {
        "ror" => {
            let s = args(line);
            Some(primitives::ror(s.s0, s.s1))
        }
        "swapmovesingle" => {
            let s = args(line);
            Some(primitives::swapmovesingle(s.s0, s.s1, s.s2))
        }
        "u32big" => Some(big(args(line))),
        "round_constant" => Some(quintuple::consts::round_constant(wide(args(line)))),
        _ => rotated(name, line),
    }
}

// ---- calls that give a state

fn swapped(s: State) -> State {
    let t = primitives::swapmove(s.s0, s.s1, s.s2, s.s3);
    State {
        s0: t.a,
        s1: t.b,
        s2: 0,
        s3: 0,
    }
}

fn packed(line: Line) -> State {
    let input = line.field(b"input");
    packing::packing(line.number(b"order"), input.bytes())
}

fn state(name: &str, line: Line) -> Option<State> {
    match name {
        "sbox" => Some(quintuple::sbox(args(line))),
        "inv_sbox" => Some(quintuple::inv_sbox(args(line))),
        "swapmove" => Some(swapped(args(line))),
        "packing" => Some(packed(line)),
        "quintuple_round" => Some(quintuple::quintuple_round(
            args(line),
            line.field(b"words").words(),
            wide(line.four(b"offset")),
        )),
        "inv_quintuple_round" => Some(quintuple::inv_quintuple_round(
            args(line),
            line.field(b"words").words(),
            wide(line.four(b"offset")),
        )),
        "first_round" => Some(quintuple::first_round(args(line), line.field(b"words").words())),
        _ => None,
    }
}

// Whether the call leaves and gives what the line says; not so for a name that is no call's.
pub(crate) fn right(name: &str, line: Line) -> bool {
    if name == "new" {
        return new(line);
    }
    if let Some(right) = by_key(name, line) {
        return right;
    }
    if let Some(right) = by_words(name, line) {
        return right;
    }
    if let Some(right) = expands(name, line) {
        return right;
    }
    if let Some(w) = word(name, line) {
        return line.says_one(b"gives", w);
    }
    match state(name, line) {
        Some(s) => line.says(b"gives", &[s.s0, s.s1, s.s2, s.s3]),
        None => false,
    }
}
