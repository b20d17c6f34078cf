// The kinds of records: first those of the input stream, each with its body, then those of the table. A stream's kind stays a byte: the
// paper names the decision over it, with ranges, and the table of lengths that it looks up ('The shape of some places').

// A leaf of the tree: label.
pub const LEAF: u8 = 1;

// A branch, which joins the last two unjoined subtrees: label.
pub const BRANCH: u8 = 2;

// The head of the query: arity, states.
pub const QUERY_HEAD: u8 = 16;

// A leaf rule: label, flag, state.
pub const LEAF_RULE: u8 = 17;

// A branch rule: label, flag, left state, right state, state.
pub const BRANCH_RULE: u8 = 18;

// An accepting state: state.
pub const ACCEPTING_STATE: u8 = 19;

// A rule's kind is so much above the kind of its nodes.
pub const RULE_ABOVE: u8 = 16;

// The kinds of the table's records. Each has a number there, since C lends the table.
#[derive(Clone, Copy, Debug, PartialEq, Eq)]
pub enum RecordKind {
    // The node at each place of the flag.
    Single = 1,
    // The left rows, then the right ones.
    Union = 2,
    // For each left row every right one.
    Product = 3,
}

// A number that is no record's kind: a blank entry has 0, and a table that a caller lends may have any.
#[derive(Clone, Copy, Debug, PartialEq, Eq)]
pub struct UnknownKind;

impl TryFrom<u16> for RecordKind {
    ghost use Rattle.paper.specs.Kinds.{Decodes};

    type Error = UnknownKind;

    ghost try_from_gives = { Decodes };

    fn try_from(number: u16) -> Result<RecordKind, UnknownKind> {
        match number {
            1 => Ok(RecordKind::Single),
            2 => Ok(RecordKind::Union),
            3 => Ok(RecordKind::Product),
            _ => Err(UnknownKind),
        }
    }
}
