// A reader of each edition for settings bundles: one id asked for, or a bundle looked through once and then asked again and again.
#![tactic(auto)]

ghost use Rattle.std.specs.Prelude.{◌≡◌, ◌+◌, ◌≤◌, IfOk, length, take, drop, map};
ghost use Rattle.answers.specs.Refusals.{number};
ghost use Rattle.cmac.specs.Calls.{same};
ghost use Rattle.bundle_format.specs.Answers.{edition_number, state_number, told_in};
ghost use Rattle.bundle_format.specs.Format.{tag_of};
ghost use Rattle.bundle_format.specs.Reader.{count_of, end_of, row_of, read_code, bare, tell, tell_in, tell_at, Asks, opened, answers_for, looked_up, entry_of};

use answers::Refusal;
use bundle_format::{Edition, Opened, Row, State, Told, knows_kind};
use bundle_judge::{judge, right_size, row_of, table};

// ---- the refusals: 1, 20, 21, 22, 23

fn right_tag(key: &[u8], b: &[u8]) -> bool
    requires key_len { length key.now ≡ 16 }
    requires in_bounds { 24 ≤ length b.now }
    ensures { result ≡ same (drop (end_of b.now) b.now) (tag_of key.now (take (end_of b.now) b.now)) }
{
    let (message, tag) = b.split_at(b.len() - 16);
    cmac::check(key, message, tag).unwrap_or(false)
}

// Of what is not refused, how many entries it has.
fn read(reader: u32, key: &[u8], b: &[u8]) -> Result<u32, Refusal>
    ensures is { number result ≡ read_code reader key.now b.now }
    ensures count { IfOk result (λ n. n ≡ count_of b.now) }
{
    if key.len() != 16 {
        return Err(Refusal::BadKeyLength);
    }
    if !right_size(b) {
        return Err(Refusal::BadBundleLength);
    }
    if !right_tag(key, b) {
        return Err(Refusal::BadTag);
    }
    judge(reader, b)
}

// ---- answers

fn only(state: State, id: u32) -> Told
    ensures { result ≡ bare (state_number state) id }
{
    Told {
        state: u32::from(state),
        id,
        ..Told::default()
    }
}

fn tell_row(reader: u32, row: Row) -> Told
    ensures { result ≡ tell reader row }
{
    if !knows_kind(reader, row.kind) {
        return only(State::Unknown, row.id);
    }
    Told {
        state: u32::from(State::Value),
        id: row.id,
        kind: row.kind,
        at: row.at,
        len: row.len,
    }
}

fn tell_id(reader: u32, entries: &[[u8; 12]], id: u32) -> Told
    ensures { result ≡ tell_in reader id (map row_of entries.now) }
{
    for entry in entries {
        let row = row_of(entry);
        if row.id == id {
            return tell_row(reader, row);
        }
    }
    only(State::Absent, 0)
}

fn tell_entry(reader: u32, entries: &[[u8; 12]], i: u32) -> Told
    ensures { result ≡ tell_at reader i (map row_of entries.now) }
{
    match entries.get(i as usize) {
        Some(entry) => tell_row(reader, row_of(entry)),
        None => only(State::Absent, 0),
    }
}

// ---- the calls, by the reader's edition

// One id of a bundle. Refusals: 1, 20, 21, 22, 23, and then no id is answered.
pub fn ask(edition: Edition, key: &[u8], bundle: &[u8], id: u32) -> Result<Told, Refusal>
    ensures { Asks (edition_number edition) key.now bundle.now id (number result) (told_in result) }
{
    let reader = u32::from(edition);
    let count = read(reader, key, bundle)?;
    Ok(tell_id(reader, table(bundle, count as usize), id))
}

// A bundle looked through once, tag and all. Refusals: 1, 20, 21, 22, 23, and then nothing is answered by it.
// Stays: the number in the record, for the C interface: a host keeps what this gives, of a refused bundle too, and the edit a_handle_that_was_refused is about that.
pub fn open(edition: Edition, key: &[u8], bundle: &[u8]) -> Opened
    ensures { result ≡ opened (edition_number edition) key.now bundle.now }
{
    let reader = u32::from(edition);
    match read(reader, key, bundle) {
        Ok(count) => Opened {
            code: 0,
            reader,
            count,
            size: bundle.len() as u32,
        },
        Err(refusal) => Opened {
            code: u32::from(refusal),
            reader,
            count: 0,
            size: 0,
        },
    }
}

fn answers_for(seen: Opened, bundle: &[u8]) -> bool
    ensures { result ≡ answers_for seen bundle.now }
{
    if seen.code != 0 {
        return false;
    }
    if seen.size as usize != bundle.len() {
        return false;
    }
    8 + 12 * seen.count as usize <= bundle.len()
}

// One id of a bundle that was looked through: a pass over its table, and no tag.
pub fn look(seen: Opened, bundle: &[u8], id: u32) -> Told
    ensures { result ≡ looked_up seen bundle.now id }
{
    if !answers_for(seen, bundle) {
        return only(State::Refused, 0);
    }
    tell_id(seen.reader, table(bundle, seen.count as usize), id)
}

// The entry at a place of its table, ids rising; past the last one, absent.
pub fn entry(seen: Opened, bundle: &[u8], i: u32) -> Told
    ensures { result ≡ entry_of seen bundle.now i }
{
    if !answers_for(seen, bundle) {
        return only(State::Refused, 0);
    }
    tell_entry(seen.reader, table(bundle, seen.count as usize), i)
}
