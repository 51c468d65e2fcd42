// Why a call is refused.
ghost use Rattle.std.specs.Prelude.{◌≡◌};
ghost use Rattle.answer.specs.Answer.{refusal_of};
ghost use Rattle.answer.specs.Reasons.{refusal_for};

use crate::Fault;

// A case for each number that a refusal has, and that number.
#[derive(Clone, Copy, Debug, PartialEq, Eq)]
pub enum Reason {
    // the sheet's byte count, the order of its words, a bit set that must be zero
    Size = 1,
    Order = 2,
    Bits = 3,
    // the limits of nodes, source and spans, and of how many spans, arcs and region words there are
    Nodes = 4,
    Source = 5,
    Spans = 6,
    TooMany = 7,
    // an arc's ends, its length, its length with its tail's hold, the arcs at a node, an arc from a node to itself
    Ends = 8,
    Length = 9,
    HeldLength = 34,
    Degree = 10,
    SelfArc = 35,
    // a parent, the leaves of an arc, a region without a child, the number of spans
    Parent = 11,
    Leaves = 12,
    Childless = 13,
    Height = 14,
    // the wanted node
    Node = 15,
    // a table's length, its form, its status, its distances and predecessors; the longer length or the form, the state of a table that is resumed
    TableLength = 21,
    Malformed = 22,
    Paused = 23,
    NotShortest = 24,
    NotLong = 32,
    NotPossible = 33,
    // a buffer too short for a route, and for what is written
    ShortRoute = 25,
    ShortBuffer = 31,
}

impl From<Reason> for Fault {
    ghost from_gives = { λ reason fault. refusal_of fault ≡ refusal_for reason };

    fn from(reason: Reason) -> Fault {
        let number = reason as u8;
        match reason {
            Reason::TableLength
            | Reason::Malformed
            | Reason::Paused
            | Reason::NotShortest
            | Reason::NotLong
            | Reason::NotPossible
            | Reason::ShortRoute => Fault::State(number),
            _ => Fault::Input(number),
        }
    }
}
