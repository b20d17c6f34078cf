// The limits of trees, queries and sets that document 01 states. The definitions (specs/) mostly have the numbers themselves, as the
// paper's text does.

// Nodes of a tree.
pub const MOST_NODES: usize = 4095;

// The label of a node, and of a rule.
pub const HIGHEST_LABEL: u8 = 63;

// The label of a pad: a leaf that stands for a missing first child or next sibling (request 2026-01), and so in no row (2026-02).
pub const PAD_LABEL: u8 = 0;

// Places of a row: the arity of a query. So a flag is below 16.
pub const MOST_PLACES: usize = 4;

// States of a query. So, with 16 flags, a node has at most 256 slots.
pub const MOST_STATES: usize = 16;

// Rules of a query, of leaves and of branches together. Accepting states need no limit: each is below the head's states, and said once.
pub const MOST_RULES: usize = 1024;

// Records of a set, however long its table is. So the number of a record fits 16 bits, and so does that of a set, two more.
pub const MOST_RECORDS: usize = 60000;

// Rows of a record: 2 to the power of 48, which is 4,096 to the power of 4, so that only a record that lists some row twice can pass it.
pub const MOST_ROWS: u64 = 281474976710656;

// Nodes of a written tree (request 2026-01). So its image, with a branch for each and one pad more, has at most 4,095 nodes.
pub const MOST_WRITTEN_NODES: usize = 2047;
