// What the calls answer. specs/Replies.antt gives 01's number and values for every case.

// Why a call was refused, in the order of 01's "Refusal numbers", from 1 to 11.
#[derive(Clone, Copy, Debug, PartialEq, Eq)]
pub enum Refusal {
    // "slice length not 40k with k from 27 to 1,026"
    Length,
    // "a mission number over 15"
    Mission,
    // "operation not 1, 2 or 3"
    Operation,
    // "no name (next: no prefix) by the rules above"
    Name,
    // "no list by the rules above"; write: "over 65,535 bytes are needed"
    List,
    // "answer buffer under 24 bytes"; write: "the buffer is short"
    Buffer,
    // "book not sound"
    NotSound,
    // "receiving list not empty"
    NotEmpty,
    // "the list has over 60,000 names"
    TooMany,
    // "n is not under the count"
    NotUnder,
    // "the sixteen lists after the change need more states than room"
    NoRoom,
}

// "Each call answers a number and a value."
pub type Answer = Result<u32, Refusal>;

// ask: "is a name on a mission's list?" And "the arcs it followed".
#[derive(Clone, Copy, Debug, PartialEq, Eq)]
pub enum Asked {
    OnList(u32),
    NotOnList(u32),
}

// next: "which letters may follow", as a set, and their number.
#[derive(Clone, Copy, Debug, PartialEq, Eq)]
pub struct Following {
    pub set: u64,
    pub count: u32,
}
