// The settings bundle's format, for its reader and its writer: an entry of its table, what calls answer, and the kinds of an edition. What they mean is in specs/.
#![tactic(auto)]

ghost use Rattle.std.specs.Prelude.{◌≡◌};
ghost use Rattle.bundle_format.specs.Format.{kinds, knows, good_value};
ghost use Rattle.bundle_format.specs.Answers.{edition_number, kind_at, state_number, state_at, asked, written};

use answers::{Refusal, number};

// An entry of the table of contents, in the table's order. Stays: kind and must-know as the numbers that stand there, for a malformed bundle may have any.
#[derive(Clone, Copy)]
pub struct Row {
    pub id: u32,
    pub at: u32,
    pub len: u32,
    pub kind: u32,
    pub must: u32,
}

// ---- editions and kinds

// The editions that a reader and a writer here are of.
#[derive(Clone, Copy, Debug, PartialEq, Eq, Hash)]
pub enum Edition {
    First,
    Second,
}

impl From<Edition> for u32 {
    ghost from_gives = { λ edition n. n ≡ edition_number edition };

    fn from(edition: Edition) -> u32 {
        match edition {
            Edition::First => 1,
            Edition::Second => 2,
        }
    }
}

// The kinds of settings: one byte, 0 or 1; a number of eight bytes; text.
#[derive(Clone, Copy, Debug, PartialEq, Eq, Hash)]
pub enum Kind {
    Flag,
    Number,
    Text,
}

// A number that is no kind's.
#[derive(Clone, Copy, Debug, PartialEq, Eq, Hash)]
pub struct NoKind;

impl TryFrom<u32> for Kind {
    type Error = NoKind;

    ghost try_from_gives = { λ n kind. kind ≡ kind_at n };

    fn try_from(n: u32) -> Result<Kind, NoKind> {
        match n {
            0 => Ok(Kind::Flag),
            1 => Ok(Kind::Number),
            2 => Ok(Kind::Text),
            _ => Err(NoKind),
        }
    }
}

// How many kinds an edition has, from kind 0 on. Stays: the edition a number, for a bundle's header may tell of any, and a reader compares it with its own.
pub fn kinds_of(edition: u32) -> u32
    ensures { result ≡ kinds edition }
{
    match edition {
        0 => 0,
        1 => 2,
        _ => 3,
    }
}

// Whether an edition has a kind. Stays: the kind a number, for a bundle of a later edition may have kinds that are none here.
pub fn knows_kind(edition: u32, kind: u32) -> bool
    ensures { result ≡ knows edition kind }
{
    kind < kinds_of(edition)
}

// Whether a body is a value of a kind.
pub fn good_value(kind: u32, body: &[u8]) -> bool
    ensures { result ≡ good_value kind body.now }
{
    match Kind::try_from(kind) {
        Ok(Kind::Flag) => body.len() == 1 && body[0] <= 1,
        Ok(Kind::Number) => body.len() == 8,
        Ok(Kind::Text) => body.len() <= 255,
        Err(_) => false,
    }
}

// ---- what calls answer

// How a setting stands: no answer, since the bundle is refused; not in the bundle; of a kind that the reader does not know; a value.
#[derive(Clone, Copy, Debug, PartialEq, Eq, Hash)]
pub enum State {
    Refused,
    Absent,
    Unknown,
    Value,
}

// A number that is no state's.
#[derive(Clone, Copy, Debug, PartialEq, Eq, Hash)]
pub struct NoState;

impl From<State> for u32 {
    ghost from_gives = { λ state n. n ≡ state_number state };

    fn from(state: State) -> u32 {
        match state {
            State::Refused => 0,
            State::Absent => 1,
            State::Unknown => 2,
            State::Value => 3,
        }
    }
}

impl TryFrom<u32> for State {
    type Error = NoState;

    ghost try_from_gives = { λ n state. state ≡ state_at n };

    fn try_from(n: u32) -> Result<State, NoState> {
        match n {
            0 => Ok(State::Refused),
            1 => Ok(State::Absent),
            2 => Ok(State::Unknown),
            3 => Ok(State::Value),
            _ => Err(NoState),
        }
    }
}

// What is told of a setting: how it stands, and of a value its kind, and where its body lies in the bundle. What does not apply is 0.
// Stays: numbers, and no enum with a value's parts in it, for the C interface.
#[repr(C)]
#[derive(Clone, Copy, Default)]
pub struct Told {
    pub state: u32,
    pub id: u32,
    pub kind: u32,
    pub at: u32,
    pub len: u32,
}

// A bundle that was looked through once: the number that this gave, by which edition's reader, how many entries it has, and how many bytes.
// Stays: a number beside what it gave, for the C interface: a host keeps the record, of a refused bundle too, and hands it back.
#[repr(C)]
#[derive(Clone, Copy)]
pub struct Opened {
    pub code: u32,
    pub reader: u32,
    pub count: u32,
    pub size: u32,
}

// What C is given of a bundle that is asked for one setting.
#[repr(C)]
#[derive(Clone, Copy)]
pub struct Asked {
    pub code: u32,
    pub told: Told,
}

impl From<Result<Told, Refusal>> for Asked {
    ghost from_gives = { λ answer given. given ≡ asked answer };

    fn from(answer: Result<Told, Refusal>) -> Asked {
        Asked {
            code: number(answer),
            told: answer.unwrap_or(Told::default()),
        }
    }
}

// What C is given of writing: the bundle's total length, 0 on a refusal.
#[repr(C)]
#[derive(Clone, Copy)]
pub struct Written {
    pub code: u32,
    pub total: u32,
}

impl From<Result<u32, Refusal>> for Written {
    ghost from_gives = { λ answer given. given ≡ written answer };

    fn from(answer: Result<u32, Refusal>) -> Written {
        Written {
            code: number(answer),
            total: answer.unwrap_or(0),
        }
    }
}
