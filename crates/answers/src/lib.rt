// What calls answer: done, or a refusal, by name. specs/Numbers.antt has the number of each, which the documents give and C is given, and specs/Refusals.antt which is whose.
#![tactic(auto)]

ghost use Rattle.std.specs.Prelude.{◌≡◌};
ghost use Rattle.answers.specs.Refusals.{number_of, number};

// Why a call is refused.
#[derive(Clone, Copy, Debug, PartialEq, Eq, Hash)]
pub enum Refusal {
    // The key is not of 16 bytes.
    BadKeyLength,
    // A block or take buffer is not of 16 bytes; many blocks: the input is not a multiple of 16.
    BadBlockLength,
    // The output is not as long as the input.
    BadOutputLength,
    // The round words are not 80.
    BadWordCount,
    // The lane's number is that of no lane.
    BadLane,
    // Opening a lane that is not idle.
    LaneNotIdle,
    // Taking from a lane that is not finished.
    LaneNotFinished,
    // More than 1,024 turns asked.
    TooManyTurns,
    // The direction is neither 0 nor 1.
    BadDirection,
    // Another number of records than there are lanes, no such lane last served, or a record that is not sound.
    BadBench,
    // The same number: a state that a host keeps claims more than it can hold.
    BadState,
    // Opening with owner 0; taking from or closing a busy lane with another number than its owner's.
    NotTheOwner,
    // A piece needs more counters than the stream has left.
    TooFewCounters,
    // The order's number is neither 0 nor 1.
    BadOrder,
    // A bundle under 24 bytes, over 65,536, or with a total length that is not the buffer's.
    BadBundleLength,
    // A bundle's tag is not the CMAC of all before it.
    BadTag,
    // A bundle that breaks the layout.
    Malformed,
    // A bundle with a setting that must be known, of a kind that the reader does not know.
    MustKnow,
    // Settings that are no list of the writer's edition, or too many for one bundle.
    BadList,
    // The output is shorter than the bundle.
    ShortOutput,
}

impl From<Refusal> for u32 {
    ghost from_gives = { λ refusal n. n ≡ number_of refusal };

    // Its number in the documents.
    fn from(refusal: Refusal) -> u32 {
        match refusal {
            Refusal::BadKeyLength => 1,
            Refusal::BadBlockLength => 2,
            Refusal::BadOutputLength => 3,
            Refusal::BadWordCount => 4,
            Refusal::BadLane => 5,
            Refusal::LaneNotIdle => 6,
            Refusal::LaneNotFinished => 7,
            Refusal::TooManyTurns => 8,
            Refusal::BadDirection => 9,
            Refusal::BadBench | Refusal::BadState => 10,
            Refusal::NotTheOwner => 11,
            Refusal::TooFewCounters => 12,
            Refusal::BadOrder => 13,
            Refusal::BadBundleLength => 20,
            Refusal::BadTag => 21,
            Refusal::Malformed => 22,
            Refusal::MustKnow => 23,
            Refusal::BadList => 24,
            Refusal::ShortOutput => 25,
        }
    }
}

// The number of an answer: 0 if the call was done.
pub fn number<T: Drop>(answer: Result<T, Refusal>) -> u32
    ensures { result ≡ number answer }
{
    match answer {
        Ok(_) => 0,
        Err(refusal) => u32::from(refusal),
    }
}
