// The pass: upwards over the records, as far as the root. Operands have lower numbers, so what they
// list is known when a record's turn comes: its cell in the lent work tells whether the record lists
// the row restricted to its flag.
ghost use Rattle.std.specs.Prelude.{◌≡◌, ◌<◌, ◌≤◌, eqb, get_or, length};
ghost use Rattle.member.specs.Pass.{Fitting, Finds};
ghost use Rattle.member.specs.Rows.{Reads, lists, stands};

use paper::kinds::{RecordKind, UnknownKind};
use paper::limits::MOST_PLACES;
use paper::{Head, Record, Set};
use places::has_place;

// The cell of a record that lists its part of the row: `true` as a number. That of one that does not is
// 0.
const LISTED: u64 = 1;

// Whether a sound set lists a row that fits it.
pub(crate) fn lists_row(head: Head, table: &[Record], work: &mut [u64], row: &[u16]) -> bool
    requires { Fitting head table.now work.old row.now }
    ensures { Finds head table.now work.old row.now result work.new }
{
    let root = match head.set {
        Set::Empty => return false,
        // Unit stands only with no open place, so a row that fits is all blank there, and that is the
        // one row of unit.
        Set::Unit => return true,
        Set::Record(number) => number as usize,
    };
    for (at, &entry) in table[..=root].iter().enumerate() {
        work[at] = u64::from(lists(entry, work, row));
    }
    work[root] == LISTED
}

// Whether a record lists its part of the row, by its cell.
fn is_listed(work: &[u64], number: u16) -> bool
    requires { number < length work.now }
    ensures { result ≡ eqb (get_or work.now number 0) 1 }
{
    work[number as usize] == LISTED
}

// Whether the record lists the row restricted to its flag, by its operands' cells. A union's operands
// have its flag, so it is the same row that they are asked for. A product's share no bit and together
// make its flag, so each is asked for its part of the row. A single has no operands, and no cell is
// looked at for it.
fn lists(entry: Record, work: &[u64], row: &[u16]) -> bool
    requires reads { Reads entry work.now }
    requires places { length row.now ≤ 4 }
    ensures { result ≡ lists row.now work.now entry }
{
    match RecordKind::try_from(entry.kind) {
        Ok(RecordKind::Single) => stands(row, entry.node, entry.flag),
        // Not `||` and `&&`: no branch depends on the left operand.
        Ok(RecordKind::Union) => is_listed(work, entry.left) | is_listed(work, entry.right),
        Ok(RecordKind::Product) => is_listed(work, entry.left) & is_listed(work, entry.right),
        Err(UnknownKind) => unreachable!(),
    }
}

// Whether the node stands at each place of the flag. No row has more entries than are taken: told so, the
// compiler makes no loop of it, with which `member` took a sixth more instructions on a set of singles.
fn stands(row: &[u16], node: u16, flag: u16) -> bool
    requires { length row.now ≤ 4 }
    ensures { result ≡ stands node flag row.now }
{
    row.iter()
        .take(MOST_PLACES)
        .enumerate()
        .all(|(index, &entry)| !has_place(flag, index) || node == entry)
}
