// The library for C: include/tarnsatchel.h says it in C. First the exported functions, each a straight line over the function of its
// name; then the head's six numbers read and written; then an answer as a number. Nothing is decided here but how an answer looks
// from C, so each contract is that of the function below it, told in numbers (specs/Told.antt).
#![tactic(auto)]

ghost use Rattle.std.specs.Prelude.{◌≡◌};
ghost use Rattle.paper.specs.Answers.{no_of, says, says_built, told};
ghost use Rattle.tarnsatchel.specs.Told.{code, set_kind, set_record, head_numbers, set_of, head_of, Tells, TellsWhere};
ghost use Rattle.tarnsatchel.specs.Told.{TellsBuild, TellsCount, TellsRow, TellsMember, TellsProject, TellsFix, TellsText, TellsTree};

use paper::{Head, Record, Refusal, Set, StreamRefusal};

// A head goes to C as so many numbers: nodes, arity, open places, records used, the kind of the set, its record.
const HEAD_NUMBERS: usize = 6;

// In every function: 0 is returned with an answer, else the refusal's number, and then an out parameter is as it was, but for the position
// of a build. From C a slice is a pointer and how many elements stand behind it, and an array or a number that is lent is a pointer. That
// so many elements are there, and that none is lent twice at once, is all that is asked of a caller (docs/PROMISES.md, 'What is believed').

// Builds the set of a stream; `head` is its head's numbers, written with an answer only. `position` is written with refusals 1 to 4 only:
// the byte position of what is at fault.
#[unsafe(no_mangle)]
pub extern "C" fn tarn_build(
    input: &[u8],
    work: &mut [u64],
    table: &mut [Record],
    head: &mut [u16; HEAD_NUMBERS],
    position: &mut usize,
) -> u8
    ensures { TellsBuild input.now work.old table.old head.old position.old result
        work.new table.new head.new position.new }
{
    let built = building::build(input, work, table);
    tell_build(built, head, position)
}

// `rows` is how many rows are listed. The head is not trusted: it is read as any six numbers are, and tested with the table.
#[unsafe(no_mangle)]
pub extern "C" fn tarn_count(
    head: &[u16; HEAD_NUMBERS],
    table: &[Record],
    work: &mut [u64],
    rows: &mut u64,
) -> u8
    ensures { TellsCount head.now table.now work.old rows.old result
        work.new rows.new }
{
    let counted = sound::count(head_of(head), table, work);
    tell(counted, rows)
}

// `row` is the row of this number, in its first entries, one a place; what is behind them stays.
#[unsafe(no_mangle)]
pub extern "C" fn tarn_row(
    head: &[u16; HEAD_NUMBERS],
    table: &[Record],
    work: &mut [u64],
    number: u64,
    row: &mut [u16],
) -> u8
    ensures { TellsRow head.now table.now work.old number row.old result
        work.new row.new }
{
    let h = head_of(head);
    let written = row::row(h, table, work, number, row);
    tell_written(written)
}

// `listed` is 1 if the row is listed, else 0: a byte, which every language that calls C has.
#[unsafe(no_mangle)]
pub extern "C" fn tarn_member(
    head: &[u16; HEAD_NUMBERS],
    table: &[Record],
    work: &mut [u64],
    row: &[u16],
    listed: &mut u8,
) -> u8
    ensures { TellsMember head.now table.now work.old row.now listed.old result
        work.new listed.new }
{
    let member = member::member(head_of(head), table, work, row);
    tell(member.map(u8::from), listed)
}

// `marks` has 1 for each node that stands at the place in some row, else 0. Bytes behind the tree's nodes stay.
#[unsafe(no_mangle)]
pub extern "C" fn tarn_project(
    head: &[u16; HEAD_NUMBERS],
    table: &[Record],
    work: &mut [u64],
    place: u16,
    marks: &mut [u8],
) -> u8
    ensures { TellsProject head.now table.now work.old place marks.old result
        work.new marks.new }
{
    let h = head_of(head);
    let projected = project::project(h, table, work, place, marks);
    tell_written(projected)
}

// Fixes the place at the node, into `target`; `fixed` is the new head's numbers. The source and its head stay as they are, so that one
// set can be narrowed in several ways.
#[unsafe(no_mangle)]
pub extern "C" fn tarn_fix(
    head: &[u16; HEAD_NUMBERS],
    source: &[Record],
    work: &mut [u64],
    place: u16,
    node: u16,
    target: &mut [Record],
    fixed: &mut [u16; HEAD_NUMBERS],
) -> u8
    ensures { TellsFix head.now source.now work.old place node target.old fixed.old result
        work.new target.new fixed.new }
{
    let answer = fix::fix(head_of(head), source, work, place, node, target);
    tell_head(answer, fixed)
}

// Bracketed text to tree records, into `tree`; `bytes` is how many bytes they have. What is behind them stays.
#[unsafe(no_mangle)]
pub extern "C" fn tarn_text_to_tree(text: &[u8], tree: &mut [u8], bytes: &mut usize) -> u8
    ensures { TellsTree text.now tree.old bytes.old result tree.new bytes.new }
{
    let made = text::text_to_tree(text, tree);
    tell(made, bytes)
}

// Tree records to the canonical text, into `text`; as above.
#[unsafe(no_mangle)]
pub extern "C" fn tarn_tree_to_text(tree: &[u8], text: &mut [u8], bytes: &mut usize) -> u8
    ensures { TellsText tree.now text.old bytes.old result text.new bytes.new }
{
    let written = text::tree_to_text(tree, text);
    tell(written, bytes)
}

// No `From` may stand here for the head: both types are other rooms'.

// The head of six numbers, whatever they are: nodes, arity, open places, records used, the kind of the set, its record.
fn head_of(numbers: &[u16; HEAD_NUMBERS]) -> Head
    ensures { result ≡ head_of numbers.now }
{
    let set = set_of(numbers[4], numbers[5]);
    Head {
        nodes: numbers[0],
        arity: numbers[1],
        open_places: numbers[2],
        used: numbers[3],
        set,
    }
}

// No sound set uses a record of this number, since at most 60,000 are used: a head with it is refused 11, or 5 before that.
const NO_RECORD: u16 = 65535;

// 0 empty, 1 unit, 2 the record; any other kind is no set, and every question on it is refused. It is not guessed at, and has no
// refusal of its own: to the questions it is one more head that is not sound.
fn set_of(kind: u16, number: u16) -> Set
    ensures { result ≡ set_of kind number }
{
    match kind {
        0 => Set::Empty,
        1 => Set::Unit,
        2 => Set::Record(number),
        _ => Set::Record(NO_RECORD),
    }
}

// The six numbers of a head, which `head_of` reads back as the same head (proofs/HeadNumbers.antt).
fn numbers_of(h: Head) -> [u16; HEAD_NUMBERS]
    ensures { result ≡ head_numbers h }
{
    let set = h.set;
    let kind = set_kind(set);
    let record = set_record(set);
    [h.nodes, h.arity, h.open_places, h.used, kind, record]
}

// 0 empty, 1 unit, 2 a record.
fn set_kind(set: Set) -> u16
    ensures { result ≡ set_kind set }
{
    match set {
        Set::Empty => 0,
        Set::Unit => 1,
        Set::Record(_) => 2,
    }
}

// The record's number, 0 for the others, so that equal heads have equal numbers.
fn set_record(set: Set) -> u16
    ensures { result ≡ set_record set }
{
    match set {
        Set::Empty => 0,
        Set::Unit => 0,
        Set::Record(i) => i,
    }
}

// 0 with an answer, which may be 0 rows or a row that is not listed. The refusal's number is above 0 for every refusal.
fn tell<A: Copy>(answered: Result<A, Refusal>, out: &mut A) -> u8
    ensures { Tells (says no_of answered) out.old result out.new }
{
    match answered {
        Ok(answer) => {
            *out = answer;
            0
        }
        Err(why) => why.number(),
    }
}

// The same of an answer that stands in a lent output already, so that only a number is told.
fn tell_written(answered: Result<(), Refusal>) -> u8
    ensures { result ≡ code (says no_of answered) }
{
    tell(answered, &mut ())
}

// The same of a new set, whose head goes as its numbers.
fn tell_head(answered: Result<Head, Refusal>, head: &mut [u16; HEAD_NUMBERS]) -> u8
    ensures { Tells (told head_numbers (says no_of answered)) head.old result head.new }
{
    tell(answered.map(numbers_of), head)
}

// The same of a build, whose refusal may have a position. Nothing is read and nothing is written for the others.
fn tell_build(
    built: Result<Head, StreamRefusal>,
    head: &mut [u16; HEAD_NUMBERS],
    position: &mut usize,
) -> u8
    ensures { TellsWhere (told head_numbers (says_built built)) head.old position.old result
        head.new position.new }
{
    match built {
        Ok(h) => {
            *head = numbers_of(h);
            0
        }
        Err(why) => {
            if let Some(at) = why.position() {
                *position = at;
            }
            why.number()
        }
    }
}
