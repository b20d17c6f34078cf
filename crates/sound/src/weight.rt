// The weight of a record, its number in the lent work once it has been tested: 16 times the rows
// that it lists, and its flag. So one number a record, which is all the work that a question asks
// for, tells both. First how a weight is read, by the questions too; then how it is made.
ghost use Rattle.std.specs.Prelude.{◌≡◌, ◌+◌, ◌*◌, ◌≤◌};
ghost use Rattle.paper.specs.Sound.{most_rows};
ghost use Rattle.sound.specs.Weights.{rows_in, flag_in};

// How many flags there are: 2 to the power of 4, the most places. The flag of a sound record is below
// it, and so does not reach the rows. It is a power of two: no division is made for it.
const FLAGS: u64 = 16;

// How many rows a record with this weight lists.
pub fn rows_in(weight: u64) -> u64
    ensures { result ≡ rows_in weight }
{
    weight / FLAGS
}

// The flag of a record with this weight. It stays a u64, of which `filled` counts the ones.
pub fn flag_in(weight: u64) -> u64
    ensures { result ≡ flag_in weight }
{
    weight % FLAGS
}

// The weight of a record that lists so many rows and has this flag. The bounds keep it far below 2 to
// the power of 64; a flag out of the table is any u16.
pub(crate) fn weight_of(rows: u64, flag: u64) -> u64
    requires { (rows ≤ most_rows) × (flag ≤ 65535) }
    ensures { result ≡ 16 * rows + flag }
{
    FLAGS * rows + flag
}
