// The lent table of records: the two functions that write it, what the second calls, and the set that a number is.
// Those two are thin functions over a slice of structs, behind a core on plain numbers: the paper names this form.
// What becomes of sets where they are put together has a file of its own.
#![tactic(auto)]

ghost use Rattle.std.specs.Prelude.{◌≡◌, ◌+◌, ◌*◌, ◌<◌, length, replicate};
ghost use Rattle.paper.specs.Records.{blank_entry};
ghost use Rattle.table.specs.Batch.{record_numbers, record_at, fits, stored};
ghost use Rattle.table.specs.Sets.{set_in, set_number};

use paper::{Record, Set};

mod made;

pub use made::{Made, product, single, union};

// A record in a batch is so many numbers, in the order of its fields: kind, node, left, right, flag.
pub const RECORD_NUMBERS: usize = 5;

// A set while it is made is a number, so that it stands in the work: empty, unit, or the number of its record and so much more.
pub const EMPTY: u64 = 0;

pub const UNIT: u64 = 1;

pub const FIRST_RECORD: u64 = 2;

// Every entry blank, which is all zeros. A build that is refused with 6 leaves its table so: it may
// have stored some of its records by then, which are no set without the others.
pub fn blank(table: &mut [Record])
    ensures { table.new ≡ replicate (length table.old) blank_entry }
{
    table.fill(Record::BLANK);
}

// The first `count` records of a batch, five numbers each, to the entries from `from` on; nothing where they do not fit.
// A batch is plain numbers, the core that the paper names. By index: of what `iter_mut` goes over a proof knows no element.
// `store` asks for nothing: a caller that knows that the records fit learns from `stored` that they stand there.
pub fn store(table: &mut [Record], from: usize, batch: &[u16], count: usize)
    ensures { table.new ≡ stored table.old from batch.now count }
{
    if !fits(table.len(), from, batch.len(), count) {
        return;
    }
    for i in 0..count {
        table[from + i] = record_at(batch, i);
    }
}

// Whether the batch has so many records, and the table so many entries from `from` on. It subtracts and divides where
// adding and multiplying would say the same, since from + count and the numbers of so many records may pass the largest usize.
fn fits(entries: usize, from: usize, numbers: usize, count: usize) -> bool
    ensures { result ≡ fits entries from numbers count }
{
    count <= entries && from <= entries - count && count <= numbers / RECORD_NUMBERS
}

// Record i of a batch, which has to be there: `store` has found that all of them are.
fn record_at(batch: &[u16], i: usize) -> Record
    requires { record_numbers * i + 4 < length batch.now }
    ensures { result ≡ record_at batch.now i }
{
    let at = RECORD_NUMBERS * i;
    Record {
        kind: batch[at],
        node: batch[at + 1],
        left: batch[at + 2],
        right: batch[at + 3],
        flag: batch[at + 4],
    }
}

// No `From` may stand here: `Set` is another room's. The set that a number is, at the end: 0 is empty, 1 is unit, i + 2 is record i. There are at most 60,000 records, so the number
// of each fits 16 bits.
pub fn set_of(number: u16) -> Set
    ensures { result ≡ set_in number }
{
    match u64::from(number) {
        EMPTY => Set::Empty,
        UNIT => Set::Unit,
        _ => Set::Record(number - FIRST_RECORD as u16),
    }
}

// And back: the number that a set is.
pub fn number_of(set: Set) -> u64
    ensures { result ≡ set_number set }
{
    match set {
        Set::Empty => EMPTY,
        Set::Unit => UNIT,
        Set::Record(i) => FIRST_RECORD + u64::from(i),
    }
}
