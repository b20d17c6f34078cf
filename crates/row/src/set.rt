// A set that `weigh` has found sound, and the ways down its records: from a row to a row of an operand,
// below all unions, and to the single that has the node at a place. No descent needs a stack, and the
// work is only read.
ghost use Rattle.std.specs.Prelude.{◌≡◌, true, take};
ghost use Rattle.paper.specs.Sound.{sound};
ghost use Rattle.sound.specs.Weights.{weights};

use paper::kinds::RecordKind;
use paper::limits::MOST_PLACES;
use paper::{Head, Place, Record, Refusal, Set};
use places::has_place;
use sound::{flag_in, rows_in, set_rows};

// The work has the weights of the used records: how many rows each lists, and its flag.
#[derive(Clone, Copy)]
pub(crate) struct SoundSet<'a> {
    pub(crate) head: Head,
    pub(crate) table: &'a [Record],
    pub(crate) work: &'a [u64],
    ghost sound: { sound head table.now ≡ true },
    ghost weighed: { take head.used work.now ≡ weights head table.now },
}

// Row `number` of record `at`.
#[derive(Clone, Copy, Debug, PartialEq, Eq)]
struct Listed {
    at: usize,
    number: u64,
}

impl SoundSet<'_> {
    ghost use Rattle.std.specs.Prelude.{◌≡◌, true, ◌<◌, length, take};
    ghost use Rattle.paper.specs.Kinds.{kind_number};
    ghost use Rattle.paper.specs.Questions.{count_of, has_place, row_numbered};
    ghost use Rattle.row.specs.Found.{found, says_found};
    ghost use Rattle.row.specs.Listed.{record_at, rows_at, entry_at, IsListed, IsSameRow, HasSameEntry};

    fn record_at(&self, at: usize) -> Record
        requires { at < self.now.head.used }
        ensures { result ≡ record_at self.now at }
    {
        self.table[at]
    }

    // A used record is a single, a union or a product, since the set is sound.
    fn kind_at(&self, at: usize) -> RecordKind
        requires { at < self.now.head.used }
        ensures { (record_at self.now at).kind ≡ kind_number result }
    {
        RecordKind::try_from(self.record_at(at).kind).unwrap()
    }

    // How many rows a record lists.
    fn rows_at(&self, at: usize) -> u64
        requires { at < self.now.head.used }
        ensures { result ≡ length (rows_at self.now at) }
    {
        rows_in(self.work[at])
    }

    // The places of a record.
    fn flag_at(&self, at: usize) -> u16
        requires { at < self.now.head.used }
        ensures { result ≡ (record_at self.now at).flag }
    {
        flag_in(self.work[at]) as u16
    }

    // A union lists its left rows, then its right ones: a number that is not one of the left is counted
    // on from them.
    fn in_union(&self, row: Listed) -> Listed
        requires listed { IsListed self.now row }
        requires union { (record_at self.now row.at).kind ≡ kind_number RecordKind.Union }
        ensures same { IsSameRow self.now row result }
        ensures lower { result.at < row.at }
    {
        let left = self.record_at(row.at).left as usize;
        let rows = self.rows_at(left);
        if row.number < rows {
            Listed {
                at: left,
                number: row.number,
            }
        } else {
            // Read only here: with both operands at hand the compiler takes one of them without a
            // branch, and then each step down a chain of unions waits for the one before.
            let right = self.record_at(row.at).right as usize;
            Listed {
                at: right,
                number: row.number - rows,
            }
        }
    }

    // A product lists, for each left row, every right row: so the number is made of a left one and a
    // right one, as tens and ones are. The place is one of the left factor or one of the right, whose
    // flags share no bit. The right factor lists some row, so nothing is divided by 0.
    fn in_product(&self, row: Listed, place: usize) -> Listed
        requires listed { IsListed self.now row }
        requires product { (record_at self.now row.at).kind ≡ kind_number RecordKind.Product }
        requires has { has_place (record_at self.now row.at).flag place ≡ true }
        ensures same { HasSameEntry self.now place row result }
        ensures lower { result.at < row.at }
    {
        let product = self.record_at(row.at);
        let left = product.left as usize;
        let right = product.right as usize;
        let rows = self.rows_at(right);
        if has_place(self.flag_at(left), place) {
            Listed {
                at: left,
                number: row.number / rows,
            }
        } else {
            Listed {
                at: right,
                number: row.number % rows,
            }
        }
    }

    // The row where the ways part. Below a union a row is a row of one operand as a whole, so the unions
    // that all places share, in a wide set most of the way, are walked once and not once a place. It
    // ends, since operands have lower numbers.
    fn below_unions(&self, mut row: Listed) -> Listed
        requires { IsListed self.now row }
        ensures { IsSameRow self.now row result }
    {
        while self.kind_at(row.at) == RecordKind::Union {
            row = self.in_union(row);
        }
        row
    }

    // The number of the single that has the node at a place of the row. It ends for the same reason.
    fn single_at(&self, mut row: Listed, place: usize) -> usize
        requires listed { IsListed self.now row }
        requires has { has_place (record_at self.now row.at).flag place ≡ true }
        ensures used { result < self.now.head.used }
        ensures node { (record_at self.now result).node ≡ entry_at self.now row place }
    {
        loop {
            match self.kind_at(row.at) {
                RecordKind::Single => return row.at,
                RecordKind::Union => row = self.in_union(row),
                RecordKind::Product => row = self.in_product(row, place),
            }
        }
    }

    // The row with this number, one entry a place: a descent for each open one, and blank at the others.
    fn row_numbered(&self, number: u64) -> [u16; MOST_PLACES]
        requires { number < count_of self.now.head self.now.table.now }
        ensures { take self.now.head.arity result ≡ row_numbered self.now.head self.now.table.now number }
    {
        let mut row = [Place::BLANK; MOST_PLACES];
        // Unit has no open place, and empty no row.
        let Set::Record(root) = self.head.set else {
            return row;
        };
        let at = root as usize;
        let start = self.below_unions(Listed { at, number });
        // By index: of what `iter_mut` goes over a proof knows no element.
        for place in 0..MOST_PLACES {
            if has_place(self.head.open_places, place) {
                let single = self.single_at(start, place);
                row[place] = self.record_at(single).node;
            }
        }
        row
    }

    // The row, or the refusal: 9 before 10, as the paper orders them.
    pub(crate) fn find(&self, number: u64, room: usize) -> Result<[u16; MOST_PLACES], Refusal>
        ensures { says_found self.now.head result ≡ found self.now.head self.now.table.now number room }
    {
        // Rows are numbered from 0. Empty has none: every number is refused.
        if set_rows(self.head.set, self.work) <= number {
            return Err(Refusal::RowNumber);
        }
        if room < self.head.arity as usize {
            return Err(Refusal::ShortOutput);
        }
        Ok(self.row_numbered(number))
    }
}
