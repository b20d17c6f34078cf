// Lists of a query's rules by symbol, made once, so that a node finds the rules of its symbol without
// passing over the others. First the symbol of a record, then the making of the lists, then their
// readers. What the lists say stands in specs/RuleLists.antt.
ghost use Rattle.std.specs.Prelude.{false, ◌≡◌, ℕ, ◌+◌, ◌-◌, ◌≤◌, ◌<◌, length, get_or, set};
ghost use Rattle.stream.specs.RuleLists.{Lists, SymbolOf, cell_behind, symbols, SymbolAt, Room, RuleLists, AddsState, TellsFirst, TellsNext, TellsAccepting};

use crate::lengths::body_length;
use paper::kinds::{ACCEPTING_STATE, BRANCH_RULE, LEAF_RULE};
use paper::limits::{HIGHEST_LABEL, MOST_RULES, MOST_STATES};
use std::array;

// The labels, from 0 on.
pub(crate) const LABELS: usize = HIGHEST_LABEL as usize + 1;

// A symbol for each label of the leaf rules, then for each of the branch rules.
const SYMBOLS: usize = 2 * LABELS;

// Behind the symbols' numbers stands that of the accepting states, a bit for each.
const ACCEPTING_CELL: usize = SYMBOLS;

// And behind it the cells of the rules begin.
const FIRST_CELL: usize = ACCEPTING_CELL + 1;

// The bytes of a leaf rule: no rule has fewer.
const SHORTEST_RULE: usize = 4;

// The bytes of a branch rule: no rule has more.
const LONGEST_RULE: usize = 6;

// The bytes of an accepting state.
const STATE_RECORD: usize = 2;

// A query that is read has at most so many bytes behind its head, as it says no accepting state twice.
const MOST_BYTES: usize = MOST_RULES * LONGEST_RULE + MOST_STATES * STATE_RECORD;

// So long are lists that have room for the rules of any query that is read: 1,673 numbers.
pub const LIST_NUMBERS: usize = FIRST_CELL + MOST_BYTES / SHORTEST_RULE;

// The highest position that a number of the lists can tell: the end of an input is one.
const HIGHEST_POSITION: usize = u16::MAX as usize;

// The number of the symbol of a kind and a label; none where the kind is no rule's, or the label one that
// no node has.
fn symbol_of(kind: u8, label: u8) -> Option<usize>
    ensures { SymbolOf kind label result }
{
    if HIGHEST_LABEL < label {
        return None;
    }
    match kind {
        LEAF_RULE => Some(usize::from(label)),
        BRANCH_RULE => Some(LABELS + usize::from(label)),
        _ => None,
    }
}

// The cell of a rule, by the bytes that stand before it behind the head. There is one for as many bytes as
// the shortest rule has, so no two rules share one, and no table of rules is needed.
fn cell_of(behind: usize) -> usize
    ensures { result ≡ cell_behind behind }
{
    FIRST_CELL + behind / SHORTEST_RULE
}

// The byte at a position, and 0 where the input has ended: a number of a record that is cut. So records can
// be listed before they are known to be whole: `list_rules` takes any bytes.
fn byte_at(input: &[u8], at: usize) -> u8
    ensures { result ≡ get_or input.now at 0 }
{
    input.get(at).copied().unwrap_or(0)
}

// The symbol of the rule at a position; none where none stands, or one with a label that no node has.
fn symbol_at(input: &[u8], at: usize) -> Option<usize>
    requires { at < length input.now }
    ensures { SymbolAt input.now at result }
{
    symbol_of(input[at], byte_at(input, at + 1))
}

// No rule yet: each list ends at once, and its last cell, which is answered, is its first.
fn start_lists(lists: &mut [u16], end: u16) -> [u16; SYMBOLS]
    requires { symbols ≤ length lists.old }
    ensures { (s : ℕ) → s < symbols → (get_or lists.new s 0 ≡ end) × (get_or result s 0 ≡ s) }
{
    lists[..SYMBOLS].fill(end);
    array::from_fn(|symbol| symbol as u16)
}

// One more rule of a symbol: what told the end tells this rule, and the rule's cell tells the end.
fn add_rule(lists: &mut [u16], last: &mut [u16], symbol: usize, cell: usize, at: u16)
    requires symbol_in_bounds { (symbol < length last.old) × (get_or last.old symbol 0 < length lists.old) }
    requires cell_in_bounds { (cell < length lists.old) × (cell < 65536) }
    ensures lists_after { lists.new ≡ set (set lists.old (get_or last.old symbol 0) at) cell
        (get_or lists.old (get_or last.old symbol 0) 0) }
    ensures last_after { last.new ≡ set last.old symbol cell }
{
    let old = usize::from(last[symbol]);
    let end = lists[old];
    lists[old] = at;
    lists[cell] = end;
    last[symbol] = cell as u16;
}

// These accepting states, and that of the record at a position if it is one's. A state that no query
// has is left out, as it has no bit.
fn with_state(input: &[u8], at: usize, accepting: u16) -> u16
    requires { at < length input.now }
    ensures { AddsState input.now at accepting result }
{
    // The kind first: most records are rules, and of these nothing more is read.
    if input[at] != ACCEPTING_STATE {
        return accepting;
    }
    let state = usize::from(byte_at(input, at + 1));
    if state < MOST_STATES {
        accepting | 1u16 << state
    } else {
        accepting
    }
}

// The lists of the rules that stand from a position on, in file order: a rule is put behind the last
// one of its symbol, whose cell is kept in `last`.
fn link_rules(input: &[u8], from: usize, lists: &mut [u16])
    requires input_len_bound { length input.now < 65536 }
    requires room { Room input.now from (length lists.old) }
    ensures { RuleLists input.now from lists.new }
{
    let mut last = start_lists(lists, input.len() as u16);
    let mut accepting: u16 = 0;
    // A `while`, as records differ in length. It ends with the input: a turn steps over a kind at least.
    let mut at = from;
    while at < input.len() {
        if let Some(symbol) = symbol_at(input, at) {
            add_rule(lists, &mut last, symbol, cell_of(at - from), at as u16);
        }
        accepting = with_state(input, at, accepting);
        at += 1 + body_length(input[at]);
    }
    lists[ACCEPTING_CELL] = accepting;
}

// The lists of a query, whose records stand from a position on. Any bytes are taken: where they are more
// than a query that is read has, or stand too far behind in the input for a number of the lists, or where
// the lists are too short, nothing is listed and they stay as they are.
pub fn list_rules(input: &[u8], from: usize, lists: &mut [u16])
    ensures { Lists input.now from lists.old lists.new }
{
    if lists.len() < LIST_NUMBERS || HIGHEST_POSITION < input.len() {
        return;
    }
    if MOST_BYTES < input.len().saturating_sub(from) {
        return;
    }
    link_rules(input, from, lists);
}

// The number in a cell, and 0 behind the last one, so that nothing is asked of the lists.
fn number_in(lists: &[u16], cell: usize) -> usize
    ensures { result ≡ get_or lists.now cell 0 }
{
    lists.get(cell).copied().map_or(0, usize::from)
}

// The first rule of a kind and a label that rules and nodes have, and the end of the input where there is
// none: that is what the lists keep, in numbers of 16 bits, and a walk over rules ends where the input does.
pub fn first_rule(lists: &[u16], kind: u8, label: u8) -> usize
    ensures { TellsFirst lists.now kind label result }
{
    symbol_of(kind, label).map_or(0, |symbol| number_in(lists, symbol))
}

// The rule behind one, of its kind and label; that one stands so many bytes behind the head.
pub fn rule_after(lists: &[u16], behind: usize) -> usize
    ensures { (from : ℕ) → TellsNext lists.now from (from + behind) result }
{
    number_in(lists, cell_of(behind))
}

// Whether a state is accepting. No other than the first 16 ever is.
pub fn accepts(lists: &[u16], state: usize) -> bool
    ensures { TellsAccepting lists.now state result × (16 ≤ state → result ≡ false) }
{
    state < MOST_STATES && (number_in(lists, ACCEPTING_CELL) >> state) % 2 == 1
}
