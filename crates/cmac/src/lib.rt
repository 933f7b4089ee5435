// CMAC of NIST SP 800-38B over GIFT-128: the tag of a whole message, a tag checked, and a message fed in pieces to a state that the caller keeps.
#![tactic(auto)]

ghost use Rattle.std.specs.Prelude.{◌≡◌, false, cond, ◌++◌, ◌+◌, ◌≤◌, eqb, length, take, replicate};
ghost use Rattle.std.specs.Result.{result_unwrap_or};
ghost use Rattle.answers.specs.Refusals.{number};
ghost use Rattle.gift128.specs.Calls.{encrypted_by};
ghost use Rattle.cmac_parts.specs.Standard.{◌⊕◌, K1, K2, padded, last_block};
ghost use Rattle.cmac.specs.Calls.{started_by, held_by, kept, fed, same, TagsWhole, Checks, Starts, Feeds, TagsState};
ghost use Rattle.cmac.specs.Inner.{absorbed, emptied, differing};

use answers::{Refusal, number};
use cmac_parts::{double, key_code, piece_code, tag_code};
use gift128::{Gift128, encrypt_by_words};
use packing::NUMBER;

// What is kept between pieces: the cipher's round words, the chaining block, and the bytes held back, of which `count`, 0 to 16, count.
// A full block is held until more comes, since the last one is treated apart. No byte of the record is padding.
// Stays: the held bytes beside their count are the C interface (gift_mac_state), whose record may hold any count; so 16 is asked again below.
#[repr(C)]
#[derive(Clone, Copy)]
pub struct Mac {
    pub words: [u32; 80],
    pub chain: [u8; 16],
    pub held: [u8; 16],
    pub count: u32,
}

// What starting answers C.
// Stays: here and below a code beside a value is the C interface (gift_mac_told, gift_mac_checked).
#[repr(C)]
#[derive(Clone, Copy)]
pub struct Started {
    pub code: u32,
    pub state: Mac,
}

// What feeding a piece answers C.
#[repr(C)]
#[derive(Clone, Copy)]
pub struct Fed {
    pub code: u32,
    pub state: Mac,
}

// What checking a tag answers C.
#[repr(C)]
#[derive(Clone, Copy)]
pub struct Checked {
    pub code: u32,
    pub yes: bool,
}

impl From<Result<Mac, Refusal>> for Started {
    ghost from_gives = { λ answer s. (s.code ≡ number answer) × (s.state ≡ result_unwrap_or answer (started_by (replicate 80 0))) };

    // After a refusal the state is all zero.
    fn from(answer: Result<Mac, Refusal>) -> Started {
        Started {
            code: number(answer),
            state: answer.unwrap_or(Mac::started_by([0; 80])),
        }
    }
}

impl Fed {
    // What a piece answers that was fed to the state given: after a refusal that state.
    pub fn new(given: Mac, answer: Result<Mac, Refusal>) -> Fed
        ensures { (result.code ≡ number answer) × (result.state ≡ result_unwrap_or answer given) }
    {
        Fed {
            code: number(answer),
            state: answer.unwrap_or(given),
        }
    }
}

impl From<Result<bool, Refusal>> for Checked {
    ghost from_gives = { λ answer c. (c.code ≡ number answer) × (c.yes ≡ result_unwrap_or answer false) };

    // After a refusal the answer is no.
    fn from(answer: Result<bool, Refusal>) -> Checked {
        Checked {
            code: number(answer),
            yes: answer.unwrap_or(false),
        }
    }
}

// ---- blocks

// Bytes put into a block from a place on, and zeros after them.
fn hold(block: &mut [u8; 16], from: usize, bytes: &[u8])
    requires { from + length bytes.now ≤ 16 }
    ensures { block.new ≡ kept (take from block.old ++ bytes.now) }
{
    let to = from + bytes.len();
    block[from..to].copy_from_slice(bytes);
    block[to..].fill(0);
}

// A block that is not full padded.
fn pad(held: [u8; 16], count: usize) -> [u8; 16]
    requires { count ≤ 16 }
    ensures { result ≡ cond (eqb count 16) held (padded (take count held)) }
{
    let mut block = held;
    if count < 16 {
        hold(&mut block, count, &[128]);
    }
    block
}

fn mix(block: &mut [u8; 16], other: &[u8])
    requires { length other.now ≡ 16 }
    ensures { block.new ≡ block.old ⊕ other.now }
{
    // Stays: an index, and beside `counter::mix`, which is of the other standard's ⊕. Tried there: `iter_mut().zip(input)`, after which a proof knows no byte.
    for (i, b) in block.iter_mut().enumerate() {
        *b ^= other[i];
    }
}

impl Mac {
    // A state by round words that nothing was fed to.
    #[tactic(auto, unfolding(crate::specs::Calls::started_by, cmac_parts::specs::Standard::zero_block))]
    fn started_by(words: [u32; 80]) -> Mac
        ensures { result ≡ started_by words }
    {
        Mac {
            words,
            chain: [0; 16],
            held: [0; 16],
            count: 0,
        }
    }

    // ---- chaining

    // One block into the chain.
    fn absorb(&mut self, block: &[u8])
        requires { length block.now ≡ 16 }
        ensures { self.new ≡ absorbed self.old block.now }
    {
        mix(&mut self.chain, block);
        let _ = encrypt_by_words(NUMBER, &self.words, &mut self.chain);
    }

    // Bytes in the place of those that are held: the blocks before the last are chained, and the last is held.
    fn digest(&mut self, bytes: &[u8])
        ensures { self.new ≡ fed (emptied self.old) bytes.now }
    {
        let mut rest = bytes;
        // Stays: a `while` on what is left, no index. The last block stays out, full or not, so `chunks` would need its count first and be no plainer.
        while 16 < rest.len() {
            let (block, more) = rest.split_at(16);
            self.absorb(block);
            rest = more;
        }
        hold(&mut self.held, 0, rest);
        self.count = rest.len() as u32;
    }

    // Bytes after those that are held.
    fn feed(&mut self, bytes: &[u8])
        requires { self.old.count ≤ 16 }
        ensures { self.new ≡ fed self.old bytes.now }
    {
        let from = self.count as usize;
        let room = 16 - from;
        if bytes.len() <= room {
            hold(&mut self.held, from, bytes);
            self.count = (from + bytes.len()) as u32;
            return;
        }
        let (first, rest) = bytes.split_at(room);
        hold(&mut self.held, from, first);
        let block = self.held;
        self.absorb(&block);
        self.digest(rest);
    }

    // ---- the last block

    // The key of the last block: K1 if it is full, else K2. L, K1 and K2 are made here, and kept nowhere.
    fn last_key(&self, full: bool) -> [u8; 16]
        ensures { result ≡ cond full (K1 (encrypted_by self.now.words)) (K2 (encrypted_by self.now.words)) }
    {
        let mut key = [0; 16];
        let _ = encrypt_by_words(NUMBER, &self.words, &mut key);
        double(&mut key);
        if full {
            return key;
        }
        double(&mut key);
        key
    }

    // The last block with its key.
    fn last(&self) -> [u8; 16]
        requires { self.now.count ≤ 16 }
        ensures { result ≡ last_block (encrypted_by self.now.words) (held_by self.now) }
    {
        let count = self.count as usize;
        let mut block = self.last_key(count == 16);
        mix(&mut block, &pad(self.held, count));
        block
    }
}

// ---- the calls

// A state that nothing was fed to. Refusal: 1.
pub fn start(key: &[u8]) -> Result<Mac, Refusal>
    ensures { Starts key.now (number result) (result_unwrap_or result (started_by (replicate 80 0))) }
{
    Ok(Mac::started_by(Gift128::new(key)?.k))
}

// The state after more of the message, of any length. Refusal: 10.
pub fn piece(mut state: Mac, bytes: &[u8]) -> Result<Mac, Refusal>
    ensures { Feeds state bytes.now (number result) (result_unwrap_or result state) }
{
    piece_code(state.count)?;
    state.feed(bytes);
    Ok(state)
}

// The tag of what was fed; the state stays as it is, and may be fed on. Refusals: 10, 2.
pub fn tag(mut state: Mac, out: &mut [u8]) -> Result<(), Refusal>
    ensures { TagsState state out.old (number result) out.new }
{
    tag_code(state.count, out.len())?;
    let block = state.last();
    state.absorb(&block);
    out.copy_from_slice(&state.chain);
    Ok(())
}

// The tag of a whole message. Refusals: 1, 2.
pub fn whole(key: &[u8], message: &[u8], out: &mut [u8]) -> Result<(), Refusal>
    ensures { TagsWhole key.now message.now out.old (number result) out.new }
{
    key_code(key.len(), out.len())?;
    tag(piece(start(key)?, message)?, out)
}

// The bits in which two tags differ, all in one byte: all bytes are looked at, whatever they are.
fn differing(a: &[u8], b: &[u8]) -> u8
    ensures { result ≡ differing a.now b.now }
{
    a.iter().zip(b).fold(0, |bits, (x, y)| bits | (*x ^ *y))
}

// Whether two tags are the same.
// Stays: no `==`, which may stop at the first byte that differs (docs/CLAIMS.md: the comparison looks at all sixteen bytes).
fn same_tags(a: &[u8], b: &[u8]) -> bool
    requires { length a.now ≡ length b.now }
    ensures { result ≡ same a.now b.now }
{
    differing(a, b) == 0
}

// Whether a tag is the message's. Refusals: 1, 2.
pub fn check(key: &[u8], message: &[u8], tag: &[u8]) -> Result<bool, Refusal>
    ensures { Checks key.now message.now tag.now (number result) (result_unwrap_or result false) }
{
    key_code(key.len(), tag.len())?;
    let mut own = [0; 16];
    let _ = whole(key, message, &mut own);
    Ok(same_tags(tag, &own))
}
