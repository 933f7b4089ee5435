// What a host links, under C names: each function hands its arguments on to the proved call of the same meaning and gives back its answer.
// The host's side of it is include/gift_host.h.
// Stays: numbers for answers, a function each way and of each edition, many arguments, for the C interface.
#![tactic(auto)]

ghost use Rattle.std.specs.Prelude.{◌≡◌, true, false};
ghost use Rattle.published.specs.Calls.{CiphersByKey};
ghost use Rattle.published.specs.Calls64.{CiphersByKey64, CiphersBlocks64};
ghost use Rattle.round_words.specs.Calls.{TellsPairs, TellsWords};
ghost use Rattle.key_schedule.specs.Expand.{Expands};
ghost use Rattle.gift128.specs.Calls.{CiphersByKeyIn, CiphersByWordsIn, CiphersBlocksIn, CiphersBlocksByWordsIn};
ghost use Rattle.counter.specs.Calls.{Starts as StartsStream, Feeds as FeedsStream};
ghost use Rattle.cmac.specs.Calls.{TagsWhole, Checks, Starts, Feeds, TagsState};
ghost use Rattle.bench_lent.specs.Lent.{Opens, Serves, Takes, Closes};
ghost use Rattle.bundle_format.specs.Reader.{Asks, opened, looked_up, entry_of};
ghost use Rattle.bundle_format.specs.Writer.{Writes};
ghost use Rattle.differ.specs.Difference.{Compares};
ghost use Rattle.gift_host.specs.Edition.{edition};

use answers::number;
use bench_lent::Turns;
use bundle_format::{Asked, Edition, Opened, Told, Written};
use cmac::{Checked, Fed, Mac, Started};
use differ::Compared;
use lane::Lane;

// The edition of records, arguments and counts that this library has. GIFT_HOST_EDITION in the header is the one that a host was compiled for.
const EDITION: u32 = 5;

#[unsafe(no_mangle)]
pub extern "C" fn gift_host_edition() -> u32
    ensures { result ≡ edition }
{
    EDITION
}

// One block by a key, in place. Refusals: 13, 1, 2.
#[unsafe(no_mangle)]
pub extern "C" fn gift_encrypt_by_key(order: u32, key: &[u8], block: &mut [u8]) -> u32
    ensures { CiphersByKeyIn false order key.now block.old result block.new }
{
    number(gift128::encrypt_by_key(order, key, block))
}

#[unsafe(no_mangle)]
pub extern "C" fn gift_decrypt_by_key(order: u32, key: &[u8], block: &mut [u8]) -> u32
    ensures { CiphersByKeyIn true order key.now block.old result block.new }
{
    number(gift128::decrypt_by_key(order, key, block))
}

// The same by the plain engine, which is written to be read and not to be fast, and knows order 0 alone. Refusals: 1, 2.
#[unsafe(no_mangle)]
pub extern "C" fn gift_plain_encrypt_by_key(key: &[u8], block: &mut [u8]) -> u32
    ensures { CiphersByKey false key.now block.old result block.new }
{
    number(plain::encrypt_by_key(key, block))
}

#[unsafe(no_mangle)]
pub extern "C" fn gift_plain_decrypt_by_key(key: &[u8], block: &mut [u8]) -> u32
    ensures { CiphersByKey true key.now block.old result block.new }
{
    number(plain::decrypt_by_key(key, block))
}

// One block by round words, any eighty, in place. Refusals: 13, 4, 2.
#[unsafe(no_mangle)]
pub extern "C" fn gift_encrypt_by_words(order: u32, words: &[u32], block: &mut [u8]) -> u32
    ensures { CiphersByWordsIn false order words.now block.old result block.new }
{
    number(gift128::encrypt_by_words(order, words, block))
}

#[unsafe(no_mangle)]
pub extern "C" fn gift_decrypt_by_words(order: u32, words: &[u32], block: &mut [u8]) -> u32
    ensures { CiphersByWordsIn true order words.now block.old result block.new }
{
    number(gift128::decrypt_by_words(order, words, block))
}

// The eighty round words of a key. Refusals: 1, 4.
#[unsafe(no_mangle)]
pub extern "C" fn gift_expand(key: &[u8], words: &mut [u32]) -> u32
    ensures { Expands key.now words.old result words.new }
{
    number(key_schedule::precompute_rkeys(key, words))
}

// The forty pairs that eighty round words stand for, V and then U of each, and the words that stand for such pairs. Refusals: 4, 3.
#[unsafe(no_mangle)]
pub extern "C" fn gift_pairs(words: &[u32], pairs: &mut [u32]) -> u32
    ensures { TellsPairs words.now pairs.old result pairs.new }
{
    number(round_words::pairs(words, pairs))
}

#[unsafe(no_mangle)]
pub extern "C" fn gift_words(pairs: &[u32], words: &mut [u32]) -> u32
    ensures { TellsWords pairs.now words.old result words.new }
{
    number(round_words::words(pairs, words))
}

// Many blocks by a key, from one buffer to another. Refusals: 13, 1, 2, 3.
#[unsafe(no_mangle)]
pub extern "C" fn gift_encrypt_blocks(
    order: u32,
    key: &[u8],
    input: &[u8],
    output: &mut [u8],
) -> u32
    ensures { CiphersBlocksIn false order key.now input.now output.old result output.new }
{
    number(gift128::encrypt_blocks(order, key, input, output))
}

#[unsafe(no_mangle)]
pub extern "C" fn gift_decrypt_blocks(
    order: u32,
    key: &[u8],
    input: &[u8],
    output: &mut [u8],
) -> u32
    ensures { CiphersBlocksIn true order key.now input.now output.old result output.new }
{
    number(gift128::decrypt_blocks(order, key, input, output))
}

// Many blocks by round words, any eighty, from one buffer to another. Refusals: 13, 4, 2, 3.
#[unsafe(no_mangle)]
pub extern "C" fn gift_encrypt_blocks_by_words(
    order: u32,
    words: &[u32],
    input: &[u8],
    output: &mut [u8],
) -> u32
    ensures { CiphersBlocksByWordsIn false order words.now input.now output.old result output.new }
{
    number(gift128::encrypt_blocks_by_words(order, words, input, output))
}

#[unsafe(no_mangle)]
pub extern "C" fn gift_decrypt_blocks_by_words(
    order: u32,
    words: &[u32],
    input: &[u8],
    output: &mut [u8],
) -> u32
    ensures { CiphersBlocksByWordsIn true order words.now input.now output.old result output.new }
{
    number(gift128::decrypt_blocks_by_words(order, words, input, output))
}

// The bench over the host's own records. Opening: 10, 5, 6, 11, 9, 13, 1, 2.
#[unsafe(no_mangle)]
pub extern "C" fn gift_open_lane(
    lanes: &mut [Lane],
    last: u32,
    lane: u32,
    owner: u16,
    direction: u32,
    order: u32,
    key: &[u8],
    block: &[u8],
) -> u32
    ensures { Opens lanes.old last lane owner direction order key.now block.now result lanes.new }
{
    number(bench_lent::open_lane(lanes, last, lane, owner, direction, order, key, block))
}

// Turns: 10, 8. The last served number goes in, and comes back.
#[unsafe(no_mangle)]
pub extern "C" fn gift_turn(lanes: &mut [Lane], last: u32, asked: u32) -> Turns
    ensures { Serves lanes.old last asked result lanes.new }
{
    bench_lent::turn(lanes, last, asked)
}

// Taking: 10, 5, 11, 7, 2.
#[unsafe(no_mangle)]
pub extern "C" fn gift_take(
    lanes: &mut [Lane],
    last: u32,
    lane: u32,
    owner: u16,
    out: &mut [u8],
) -> u32
    ensures { Takes lanes.old last lane owner out.old result lanes.new out.new }
{
    number(bench_lent::take(lanes, last, lane, owner, out))
}

// Closing: 10, 5, 11.
#[unsafe(no_mangle)]
pub extern "C" fn gift_close(lanes: &mut [Lane], last: u32, lane: u32, owner: u16) -> u32
    ensures { Closes lanes.old last lane owner result lanes.new }
{
    number(bench_lent::close(lanes, last, lane, owner))
}

// CMAC. The tag of a whole message: 1, 2.
#[unsafe(no_mangle)]
pub extern "C" fn gift_mac(key: &[u8], message: &[u8], tag: &mut [u8]) -> u32
    ensures { TagsWhole key.now message.now tag.old result tag.new }
{
    number(cmac::whole(key, message, tag))
}

// A tag checked: 1, 2.
#[unsafe(no_mangle)]
pub extern "C" fn gift_mac_check(key: &[u8], message: &[u8], tag: &[u8]) -> Checked
    ensures { Checks key.now message.now tag.now result.code result.yes }
{
    cmac::check(key, message, tag).into()
}

// In pieces, over a state that goes in by value and comes back. A start: 1.
#[unsafe(no_mangle)]
pub extern "C" fn gift_mac_start(key: &[u8]) -> Started
    ensures { Starts key.now result.code result.state }
{
    cmac::start(key).into()
}

// A piece: 10.
#[unsafe(no_mangle)]
pub extern "C" fn gift_mac_piece(state: Mac, piece: &[u8]) -> Fed
    ensures { Feeds state piece.now result.code result.state }
{
    Fed::new(state, cmac::piece(state, piece))
}

// The tag of a state: 10, 2.
#[unsafe(no_mangle)]
pub extern "C" fn gift_mac_tag(state: Mac, tag: &mut [u8]) -> u32
    ensures { TagsState state tag.old result tag.new }
{
    number(cmac::tag(state, tag))
}

// Counter mode. A start gives a stream, which the host keeps: 1, 2.
#[unsafe(no_mangle)]
pub extern "C" fn gift_stream_start(key: &[u8], nonce: &[u8], counter: u32) -> counter::Started
    ensures { StartsStream key.now nonce.now counter result.code result.stream }
{
    counter::start(key, nonce, counter).into()
}

// A piece, over the host's own stream: 10, 3, 12. What comes back takes its place.
#[unsafe(no_mangle)]
pub extern "C" fn gift_stream_piece(
    stream: &mut counter::Stream,
    input: &[u8],
    output: &mut [u8],
) -> u32
    ensures { FeedsStream stream.old input.now output.old result stream.new output.new }
{
    number(stream.feed(input, output))
}

// GIFT-64. One block by a key, in place. Refusals: 1, 2.
#[unsafe(no_mangle)]
pub extern "C" fn gift64_encrypt_by_key(key: &[u8], block: &mut [u8]) -> u32
    ensures { CiphersByKey64 false key.now block.old result block.new }
{
    number(gift64::encrypt_by_key(key, block))
}

#[unsafe(no_mangle)]
pub extern "C" fn gift64_decrypt_by_key(key: &[u8], block: &mut [u8]) -> u32
    ensures { CiphersByKey64 true key.now block.old result block.new }
{
    number(gift64::decrypt_by_key(key, block))
}

// The same by the plain engine. Refusals: 1, 2.
#[unsafe(no_mangle)]
pub extern "C" fn gift64_plain_encrypt_by_key(key: &[u8], block: &mut [u8]) -> u32
    ensures { CiphersByKey64 false key.now block.old result block.new }
{
    number(plain::encrypt_64_by_key(key, block))
}

#[unsafe(no_mangle)]
pub extern "C" fn gift64_plain_decrypt_by_key(key: &[u8], block: &mut [u8]) -> u32
    ensures { CiphersByKey64 true key.now block.old result block.new }
{
    number(plain::decrypt_64_by_key(key, block))
}

// Many blocks by a key, from one buffer to another. Refusals: 1, 2, 3.
#[unsafe(no_mangle)]
pub extern "C" fn gift64_encrypt_blocks(key: &[u8], input: &[u8], output: &mut [u8]) -> u32
    ensures { CiphersBlocks64 false key.now input.now output.old result output.new }
{
    number(gift64::encrypt_blocks(key, input, output))
}

#[unsafe(no_mangle)]
pub extern "C" fn gift64_decrypt_blocks(key: &[u8], input: &[u8], output: &mut [u8]) -> u32
    ensures { CiphersBlocks64 true key.now input.now output.old result output.new }
{
    number(gift64::decrypt_blocks(key, input, output))
}

// The settings bundle (2026-11), by a reader and a writer of edition 1 or 2. One id of a bundle: 1, 20, 21, 22, 23.
#[unsafe(no_mangle)]
pub extern "C" fn gift_bundle_ask_1(key: &[u8], bundle: &[u8], id: u32) -> Asked
    ensures { Asks 1 key.now bundle.now id result.code result.told }
{
    bundle_reader::ask(Edition::First, key, bundle, id).into()
}

#[unsafe(no_mangle)]
pub extern "C" fn gift_bundle_ask_2(key: &[u8], bundle: &[u8], id: u32) -> Asked
    ensures { Asks 2 key.now bundle.now id result.code result.told }
{
    bundle_reader::ask(Edition::Second, key, bundle, id).into()
}

// A bundle looked through once: 1, 20, 21, 22, 23.
#[unsafe(no_mangle)]
pub extern "C" fn gift_bundle_open_1(key: &[u8], bundle: &[u8]) -> Opened
    ensures { result ≡ opened 1 key.now bundle.now }
{
    bundle_reader::open(Edition::First, key, bundle)
}

#[unsafe(no_mangle)]
pub extern "C" fn gift_bundle_open_2(key: &[u8], bundle: &[u8]) -> Opened
    ensures { result ≡ opened 2 key.now bundle.now }
{
    bundle_reader::open(Edition::Second, key, bundle)
}

// Then one id of it, or the entry at a place.
#[unsafe(no_mangle)]
pub extern "C" fn gift_bundle_look(seen: Opened, bundle: &[u8], id: u32) -> Told
    ensures { result ≡ looked_up seen bundle.now id }
{
    bundle_reader::look(seen, bundle, id)
}

#[unsafe(no_mangle)]
pub extern "C" fn gift_bundle_entry(seen: Opened, bundle: &[u8], i: u32) -> Told
    ensures { result ≡ entry_of seen bundle.now i }
{
    bundle_reader::entry(seen, bundle, i)
}

// A list written: 1, 24, 25.
#[unsafe(no_mangle)]
pub extern "C" fn gift_bundle_write_1(
    key: &[u8],
    rows: &[u32],
    pool: &[u8],
    out: &mut [u8],
) -> Written
    ensures { Writes 1 key.now rows.now pool.now out.old result.code result.total out.new }
{
    bundle_writer::write(Edition::First, key, rows, pool, out).into()
}

#[unsafe(no_mangle)]
pub extern "C" fn gift_bundle_write_2(
    key: &[u8],
    rows: &[u32],
    pool: &[u8],
    out: &mut [u8],
) -> Written
    ensures { Writes 2 key.now rows.now pool.now out.old result.code result.total out.new }
{
    bundle_writer::write(Edition::Second, key, rows, pool, out).into()
}

// Two bundles compared by the reader of edition 2 (2026-13): the first's number, the second's, 25.
#[unsafe(no_mangle)]
pub extern "C" fn gift_bundle_differ(
    key: &[u8],
    first: &[u8],
    second: &[u8],
    rows: &mut [u32],
) -> Compared
    ensures { Compares key.now first.now second.now rows.old result.code result.first result.second result.count rows.new }
{
    differ::compare(key, first, second, rows)
}
