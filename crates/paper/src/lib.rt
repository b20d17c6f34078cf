// The plain types that document 01 speaks of: a record of the table, a set and its head, the two fixed names, and the refusals. A call
// answers `Result<_, Refusal>`, and a build `Result<Head, StreamRefusal>`. The kinds of records and the limits have files of their own.
// What they mean stands in specs/, section by section; specs/Answers.antt has the number of each refusal, and what each answer says.
#![tactic(auto)]

ghost use Rattle.std.specs.Prelude.{◌≡◌};
ghost use Rattle.paper.specs.Answers.{no_of_stream, number_of};
ghost use Rattle.paper.specs.Refusals.{number_in, position_in};

pub mod kinds;
pub mod limits;

// One entry of the lent table: a single, a union or a product, by its kind. All zeros is the blank entry. Each number of document 01
// fits 16 bits, so an entry has ten bytes and no padding, and a C compiler lays it out the same: hence `repr(C)`.
#[repr(C)]
#[derive(Clone, Copy, Debug, PartialEq, Eq)]
pub struct Record {
    pub kind: u16,
    pub node: u16,
    pub left: u16,
    pub right: u16,
    pub flag: u16,
}

impl Record {
    pub const BLANK: Record = Record {
        kind: 0,
        node: 0,
        left: 0,
        right: 0,
        flag: 0,
    };
}

// What a head's set is. Empty lists no row and unit one row of blanks; neither is ever a record, nor an operand of one.
#[derive(Clone, Copy, Debug, PartialEq, Eq)]
pub enum Set {
    Empty,
    Unit,
    Record(u16),
}

// Of a set: the nodes of its tree, its arity, its open places as a flag, how many entries of its table are used, and the set itself.
// A head that a caller hands back may hold any numbers; the questions test them before all else and refuse what is not sound.
#[derive(Clone, Copy, Debug, PartialEq, Eq)]
pub struct Head {
    pub nodes: u16,
    pub arity: u16,
    pub open_places: u16,
    pub used: u16,
    pub set: Set,
}

// Places as the bits of a number; place 1 is the lowest.
#[derive(Clone, Copy, Debug, PartialEq, Eq)]
pub struct Flag(pub u16);

impl Flag {
    pub const NONE: u16 = 0;
}

// What stands at a place of a row: a node, or the mark for a blank place. No node has this number, since a tree has at most 4,095.
#[derive(Clone, Copy, Debug, PartialEq, Eq)]
pub struct Place(pub u16);

impl Place {
    pub const BLANK: u16 = 65535;
}

// The numbers that say no, from 5 on, in the order of their table, each case named after its cause. It is one enum for all calls, which
// a build has inside `StreamRefusal`, so that a number means the same wherever it is met; which call gives which, and which first, is
// said in specs/Refusals.antt, and for the two calls of request 2026-01 in specs/Conversions.antt.
#[derive(Clone, Copy, Debug, PartialEq, Eq)]
pub enum Refusal {
    ShortWork = 5,
    ShortTable = 6,
    Place = 7,
    Node = 8,
    RowNumber = 9,
    ShortOutput = 10,
    NotSound = 11,
    UnitTwice = 12,
    RowLength = 13,
    LongInput = 14,
    Text = 15,
}

impl Refusal {
    // The paper's number. In Rattle it stands above and below only: the functions for C and the programs ask these. The header and the
    // bindings list the numbers once more, for those who write in C, Fortran or Rust.
    pub fn number(self) -> u8
        ensures { result ≡ number_of self }
    {
        self as u8
    }
}

// What says no to a stream: 1 to 4, each with the byte position of what is at fault (request 2026-04), or one of the others. The
// programs tell every refusal as one of these. It is a type of its own, so that what only has a number stays a byte.
#[derive(Clone, Copy, Debug, PartialEq, Eq)]
pub enum StreamRefusal {
    Tree(usize),
    ManyNodes(usize),
    Query(usize),
    Twice(usize),
    Other(Refusal),
}

// So `?` makes one of the first kind one of a stream.
impl From<Refusal> for StreamRefusal {
    ghost use Rattle.paper.specs.declared.StreamRefusal.TheVariants.{Other};

    ghost from_gives = { λ why stream. stream ≡ Other why };

    fn from(refusal: Refusal) -> StreamRefusal {
        StreamRefusal::Other(refusal)
    }
}

impl StreamRefusal {
    pub fn number(self) -> u8
        ensures { result ≡ number_in (no_of_stream self) }
    {
        match self {
            StreamRefusal::Tree(_) => 1,
            StreamRefusal::ManyNodes(_) => 2,
            StreamRefusal::Query(_) => 3,
            StreamRefusal::Twice(_) => 4,
            StreamRefusal::Other(why) => why.number(),
        }
    }

    // The position that 1 to 4 have.
    pub fn position(self) -> Option<usize>
        ensures { result ≡ position_in (no_of_stream self) }
    {
        match self {
            StreamRefusal::Tree(at)
            | StreamRefusal::ManyNodes(at)
            | StreamRefusal::Query(at)
            | StreamRefusal::Twice(at) => Some(at),
            StreamRefusal::Other(_) => None,
        }
    }
}
