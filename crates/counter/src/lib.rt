// Counter mode of NIST SP 800-38A over GIFT-128, fed in pieces of any length to a stream that the caller keeps.
#![tactic(auto)]

ghost use Rattle.std.specs.Prelude.{◌≡◌, cond, ◌/◌, ◌%◌, ◌^◌, ◌<◌, ◌≤◌, eqb, length};
ghost use Rattle.std.specs.Result.{result_unwrap_or};
ghost use Rattle.answers.specs.Refusals.{number};
ghost use Rattle.published.specs.Bytes.{to_bytes};
ghost use Rattle.gift128.specs.Calls.{encrypted_by};
ghost use Rattle.counter_orders.specs.Orders.{counters, needed};
ghost use Rattle.counter.specs.Standard.{◌⊕◌, counter_block, key_blocks};
ghost use Rattle.counter.specs.Steps.{zero_block};
ghost use Rattle.counter.specs.Calls.{no_stream, Starts, Feeds};
ghost use Rattle.counter.specs.Inner.{LastBytes, NewBytes, MoreBytes, KeyBytes, place_of, moved};

use answers::{Refusal, number};
use counter_orders::{Place, blocks_needed, start_code};
use gift128::{encrypt_blocks_by_words, encrypt_by_words};
use key_schedule::precompute_rkeys;
use packing::NUMBER;

// What is kept between pieces: the cipher's round words, the caller's twelve bytes, the next counter, the block of the key stream that was made
// last, how many of its bytes, 0 to 15, are not used yet, and whether the last counter is used (not if 0). There is one such state for each
// position: where no byte is unused the block is zero, and where the stream is spent the counter is 0. No byte of the record is padding.
// Stays: `spent` beside the counter, and the block beside how much of it is unused, are the C interface (gift_stream), whose record may hold any numbers; so 15 is asked again below.
#[repr(C)]
#[derive(Clone, Copy)]
pub struct Stream {
    pub words: [u32; 80],
    pub nonce: [u8; 12],
    pub counter: u32,
    pub block: [u8; 16],
    pub unused: u32,
    pub spent: u32,
}

// What starting answers C.
// Stays: a code beside the stream is the C interface (gift_stream_started).
#[repr(C)]
#[derive(Clone, Copy)]
pub struct Started {
    pub code: u32,
    pub stream: Stream,
}

impl From<Result<Stream, Refusal>> for Started {
    ghost from_gives = { λ answer s. (s.code ≡ number answer) × (s.stream ≡ result_unwrap_or answer no_stream) };

    // After a refusal the stream is all zero and spent.
    #[tactic(auto, unfolding(crate::specs::Calls::no_stream))]
    fn from(answer: Result<Stream, Refusal>) -> Started {
        let none = Stream {
            words: [0; 80],
            nonce: [0; 12],
            counter: 0,
            block: [0; 16],
            unused: 0,
            spent: 1,
        };
        Started {
            code: number(answer),
            stream: answer.unwrap_or(none),
        }
    }
}

// Stays: a loop by hand. `copy_from_slice` from one lent place to another, which the compiler cannot tell apart, makes the archive call `memmove`, and a host is told
// that it calls nothing but memcpy and memset.
fn copy(from: &[u8], to: &mut [u8])
    requires { length from.now ≡ length to.old }
    ensures { to.new ≡ from.now }
{
    for (i, b) in to.iter_mut().enumerate() {
        *b = from[i];
    }
}

fn mix(input: &[u8], output: &mut [u8])
    requires { length input.now ≡ length output.old }
    ensures { output.new ≡ input.now ⊕ output.old }
{
    // Stays: an index into the input. Tried `output.iter_mut().zip(input)`, after which a proof knows no byte of the output.
    for (i, b) in output.iter_mut().enumerate() {
        *b ^= input[i];
    }
}

// ---- the key stream

fn counter_block(nonce: &[u8; 12], counter: usize) -> [u8; 16]
    ensures { result ≡ counter_block nonce.now counter }
{
    let four = ((counter % 4294967296) as u32).to_be_bytes();
    let mut block = [0u8; 16];
    block[..12].copy_from_slice(nonce);
    block[12..].copy_from_slice(&four);
    block
}

// Counter blocks, as many as there is room for.
fn counter_blocks(nonce: &[u8; 12], counter: usize, blocks: &mut [u8])
    requires counter_bound { counter < 2 ^ 61 }
    requires blocks_len { length blocks.old % 16 ≡ 0 }
    ensures { blocks.new ≡ key_blocks (λ t. t) nonce.now counter (length blocks.old / 16) }
{
    // Stays: an index. Tried `blocks.chunks_exact_mut(16).enumerate()`, after which a proof knows no byte of the blocks.
    for k in 0..blocks.len() / 16 {
        let a = 16 * k;
        let block = counter_block(nonce, counter + k);
        blocks[a..a + 16].copy_from_slice(&block);
    }
}

impl Stream {
    // The numbers that move.
    fn place(&self) -> Place
        ensures { result ≡ place_of self.now }
    {
        Place {
            counter: self.counter,
            unused: self.unused,
            spent: self.spent,
        }
    }

    // The block of a counter.
    fn key_block(&self, counter: usize) -> [u8; 16]
        ensures { result ≡ encrypted_by self.now.words (counter_block self.now.nonce counter) }
    {
        let mut block = counter_block(&self.nonce, counter);
        let _ = encrypt_by_words(NUMBER, &self.words, &mut block);
        block
    }

    // Whole blocks, as many as there is room for: counter blocks side by side in a buffer that is lent, and those through the cipher's call on many blocks.
    fn key_blocks_by(&self, blocks: &mut [u8], output: &mut [u8])
        requires blocks_nonzero { (0 < length blocks.old) × (length blocks.old % 16 ≡ 0) }
        requires output_len { length output.old % 16 ≡ 0 }
        ensures { output.new ≡ key_blocks (encrypted_by self.now.words) self.now.nonce self.now.counter (length output.old / 16) }
    {
        // Stays: an index, and the multiples of 16 that are asked, since of `chunks_mut` and `as_chunks_mut` a proof knows no byte that was written (tried in `counter_blocks`).
        let mut a: usize = 0;
        while a < output.len() {
            let n = blocks.len().min(output.len() - a);
            let e = a + n;
            counter_blocks(
                &self.nonce,
                self.counter as usize + a / 16,
                &mut blocks[..n],
            );
            let _ = encrypt_blocks_by_words(NUMBER, &self.words, &blocks[..n], &mut output[a..e]);
            a = e;
        }
    }

    // By a small buffer while the cipher goes through its blocks eight at once, and by a larger one where it takes sixty-four: five times as many, since it makes
    // masks of the words anew for each buffer.
    fn key_blocks(&self, output: &mut [u8])
        requires { length output.old % 16 ≡ 0 }
        ensures { output.new ≡ key_blocks (encrypted_by self.now.words) self.now.nonce self.now.counter (length output.old / 16) }
    {
        if output.len() < 1024 {
            let mut few = [0u8; 512];
            self.key_blocks_by(&mut few, output);
            return;
        }
        let mut many = [0u8; 5120];
        self.key_blocks_by(&mut many, output);
    }

    // The start of a counter's block, less than all of it, and that block, which stays; none is made for no bytes.
    fn last_bytes(&self, counter: usize, output: &mut [u8]) -> [u8; 16]
        requires { length output.old < 16 }
        ensures { LastBytes self.now.words self.now.nonce counter self.now.block (length output.old) result output.new }
    {
        if output.is_empty() {
            return self.block;
        }
        let block = self.key_block(counter);
        output.copy_from_slice(&block[..output.len()]);
        block
    }

    // New bytes, whole blocks first, and the block that stays.
    fn new_bytes(&self, output: &mut [u8]) -> [u8; 16]
        ensures { NewBytes self.now.words self.now.nonce self.now.counter self.now.block (length output.old) result output.new }
    {
        let whole = output.len() - output.len() % 16;
        self.key_blocks(&mut output[..whole]);
        self.last_bytes(self.counter as usize + whole / 16, &mut output[whole..])
    }

    // The unused bytes, and new ones after them.
    fn more_bytes(&self, output: &mut [u8]) -> [u8; 16]
        requires unused_bound { self.now.unused ≤ 15 }
        requires unused_in_bounds { self.now.unused ≤ length output.old }
        ensures { MoreBytes self.now.words self.now.nonce self.now.counter self.now.unused self.now.block (length output.old) result output.new }
    {
        let unused = self.unused as usize;
        copy(&self.block[16 - unused..], &mut output[..unused]);
        self.new_bytes(&mut output[unused..])
    }

    // Bytes from any place of a stream, and the block that stays.
    fn key_bytes(&self, output: &mut [u8]) -> [u8; 16]
        requires { self.now.unused ≤ 15 }
        ensures { KeyBytes self.now.words self.now.nonce self.now.counter self.now.unused self.now.block (length output.old) result output.new }
    {
        let unused = self.unused as usize;
        if output.len() <= unused {
            let from = 16 - unused;
            copy(&self.block[from..from + output.len()], output);
            return self.block;
        }
        self.more_bytes(output)
    }
}

// Whether a stream is spent whose next counter would be this one.
fn spent_at(counter: usize, spent: u32) -> u32
    ensures { result ≡ cond (eqb counter counters) 1 spent }
{
    if counter == 4294967296 {
        return 1;
    }
    spent
}

// The numbers after n bytes, for which the counters are enough.
#[tactic(auto, unfolding(crate::specs::Inner::moved))]
fn moves(p: Place, n: usize) -> Place
    requires unused_bound { p.unused ≤ 15 }
    requires n_bound { needed p.unused n ≤ counters }
    ensures { result ≡ moved p n }
{
    let blocks = blocks_needed(p.unused as usize, n);
    let counter = (p.counter as usize) + blocks;
    let unused = (p.unused as usize) + 16 * blocks - n;
    let spent = spent_at(counter, p.spent);
    Place {
        counter: (counter % 4294967296) as u32,
        unused: unused as u32,
        spent,
    }
}

// A block that is used up is not kept.
fn kept(block: [u8; 16], unused: u32) -> [u8; 16]
    ensures { result ≡ cond (eqb unused 0) zero_block block }
{
    if unused == 0 {
        return [0u8; 16];
    }
    block
}

// ---- the calls

// A stream at its first counter. Refusals: 1, 2.
pub fn start(key: &[u8], nonce: &[u8], counter: u32) -> Result<Stream, Refusal>
    ensures { Starts key.now nonce.now counter (number result) (result_unwrap_or result no_stream) }
{
    start_code(key.len(), nonce.len())?;
    let mut stream = Stream {
        words: [0; 80],
        nonce: [0; 12],
        counter,
        block: [0; 16],
        unused: 0,
        spent: 0,
    };
    let _ = precompute_rkeys(key, &mut stream.words);
    stream.nonce.copy_from_slice(nonce);
    Ok(stream)
}

impl Stream {
    // More of the message, from one buffer to another. Encrypting and decrypting are the same. Refusals: 10, 3, 12, and then neither the stream nor the output has changed.
    pub fn feed(&mut self, input: &[u8], output: &mut [u8]) -> Result<(), Refusal>
        ensures { Feeds self.old input.now output.old (number result) self.new output.new }
    {
        let place = self.place();
        place.piece_code(input.len(), output.len())?;
        if input.is_empty() {
            return Ok(());
        }
        let block = self.key_bytes(output);
        mix(input, output);
        let to = moves(place, input.len());
        self.counter = to.counter;
        self.block = kept(block, to.unused);
        self.unused = to.unused;
        self.spent = to.spent;
        Ok(())
    }
}

// The same of a stream by value: the stream after the piece.
pub fn piece(mut stream: Stream, input: &[u8], output: &mut [u8]) -> Result<Stream, Refusal>
    ensures { Feeds stream input.now output.old (number result) (result_unwrap_or result stream) output.new }
{
    stream.feed(input, output)?;
    Ok(stream)
}
