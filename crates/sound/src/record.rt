// The test of one record after those before it, of which the work has the weights. First the tests of
// the flags, then the weight of each kind, then that of any record; one that is not sound has none.
ghost use Rattle.std.specs.Prelude.{◌&&◌, ◌≡◌, ◌+◌, ◌*◌, ◌≤◌, ◌<◌, eqb, length};
ghost use Rattle.paper.specs.Sound.{apart, most_rows};
ghost use Rattle.sound.specs.OneRecord.{single_rows, union_rows, product_rows, rows_by, rows_found, weight_for, record_fits, before, Weighable};
ghost use Rattle.sound.specs.Weights.{rows_in};

use crate::weight::{flag_in, rows_in, weight_of};
use paper::kinds::{RecordKind, UnknownKind};
use paper::limits::MOST_ROWS;
use paper::{Flag, Head, Record};
use places::filled;

// The number of places a record fills is the number of ones in its flag: a product adds, a union
// keeps. Document 01 asks for these counts by name ('The shape of some places'), so they stand though
// flags are compared faster without them (docs/DECISIONS.md, 49). They are the test: where the
// operands' flags together make the record's flag, it is by the counts that a product's share no
// place and that each of a union's has them all.

// Whether the flags of a product's operands share no bit and together make its flag: their places add
// to its own.
fn adds(left: u64, right: u64, flag: u64) -> bool
    ensures { result ≡ apart left right && eqb (left + right) flag }
{
    left | right == flag && filled(left) + filled(right) == filled(flag)
}

// Whether a union's operands have its flag: together they make it, and each keeps the number of its
// places.
fn keeps(left: u64, right: u64, flag: u64) -> bool
    ensures { result ≡ eqb left flag && eqb right flag }
{
    if left | right != flag {
        return false;
    }
    // Neither has a place that the flag lacks, so one that has as many has all of them.
    let places = filled(flag);
    filled(left) == places && filled(right) == places
}

// The weight of a single: it has one row, and no operands.
fn single_weight(r: Record) -> Option<u64>
    ensures { result ≡ weight_for r.flag (single_rows r) }
{
    if r.left == 0 && r.right == 0 {
        Some(weight_of(1, r.flag as u64))
    } else {
        None
    }
}

// The weight of a union of records with these weights. The rows are added where they stand: a union
// often waits for the weight of its left operand, and this way for one addition only, with no shifts
// around it.
fn union_weight(flag: u64, left: u64, right: u64) -> Option<u64>
    requires { (rows_in left ≤ most_rows) × (rows_in right ≤ most_rows) }
    ensures { result ≡ weight_for flag (union_rows flag left right) }
{
    if !keeps(flag_in(left), flag_in(right), flag) {
        return None;
    }
    // Both weights have the flag: the right one gives up its own, and so the sum has it once. Neither
    // has more rows than the limit, so the sum fits a u64; its own rows are compared after it.
    let weight = left + (right - flag);
    if rows_in(weight) <= MOST_ROWS {
        Some(weight)
    } else {
        None
    }
}

// The weight of a product of records with these weights. The rows are multiplied as u128, which any two
// such numbers fit: a division in its place would be slow.
fn product_weight(flag: u64, left: u64, right: u64) -> Option<u64>
    requires { flag ≤ 65535 }
    ensures { result ≡ weight_for flag (product_rows flag left right) }
{
    if !adds(flag_in(left), flag_in(right), flag) {
        return None;
    }
    let rows = rows_in(left) as u128 * rows_in(right) as u128;
    if rows <= MOST_ROWS as u128 {
        Some(weight_of(rows as u64, flag))
    } else {
        None
    }
}

// The weights of the operands of record `at`, where both are lower: so no record leads back to itself.
fn operands(r: Record, at: usize, work: &[u64]) -> Option<(u64, u64)>
    requires { at < length work.now }
    ensures { result ≡ before r at work.now }
{
    let left = r.left as usize;
    let right = r.right as usize;
    if left >= at || right >= at {
        return None;
    }
    Some((work[left], work[right]))
}

// The weight of record `at` by its kind and its operands.
#[tactic(auto, unfolding(crate::specs::OneRecord::rows_by))]
fn weight_by(r: Record, at: usize, work: &[u64]) -> Option<u64>
    requires { Weighable at work.now }
    ensures { result ≡ weight_for r.flag (rows_by r at work.now) }
{
    let flag = r.flag as u64;
    match RecordKind::try_from(r.kind) {
        // Its left and right are 0 and no operands: no record is below record 0.
        Ok(RecordKind::Single) => single_weight(r),
        Ok(RecordKind::Union) => {
            let (left, right) = operands(r, at, work)?;
            union_weight(flag, left, right)
        }
        Ok(RecordKind::Product) => {
            let (left, right) = operands(r, at, work)?;
            product_weight(flag, left, right)
        }
        Err(UnknownKind) => None,
    }
}

// Whether a record has a node of the tree and a flag above none and below 2 to the arity, which the
// head's test has found to be at most 4. That comes down from the pass as a premise: a struct for one
// number, made where the head is tested and taken apart here, would be no plainer.
#[tactic(auto, unfolding(crate::specs::OneRecord::record_fits))]
fn record_fits(r: Record, nodes: u16, arity: u16) -> bool
    requires { arity ≤ 4 }
    ensures { result ≡ record_fits r nodes arity }
{
    r.node < nodes && r.flag > Flag::NONE && r.flag < 1u16 << arity
}

// The weight of record `at`, if it is sound.
pub(crate) fn record_weight(r: Record, at: usize, head: Head, work: &[u64]) -> Option<u64>
    requires few_places { head.arity ≤ 4 }
    requires weighable { Weighable at work.now }
    ensures { result ≡ weight_for r.flag (rows_found head r at work.now) }
{
    if record_fits(r, head.nodes, head.arity) {
        weight_by(r, at, work)
    } else {
        None
    }
}
