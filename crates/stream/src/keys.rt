// What the records behind the head say once, as a table of bits. First the keys: a number for each
// accepting state and for each kind and left side of a rule. Then the table, a bit for each key.
ghost use Rattle.std.specs.Prelude.{true, ◌≡◌, ◌*◌, ◌≤◌, ◌<◌, length, get_or};
ghost use Rattle.paper.specs.Query.{is_rule_kind};
ghost use Rattle.stream.specs.Keys.{word_bits, most_ends, most_keys, ends_of, keys_of, key_of, FittingAt, SaysKey};
ghost use Rattle.stream.specs.Positions.{after, record_at};

use crate::head::QueryHead;
use crate::lists::LABELS;
use paper::kinds::{ACCEPTING_STATE, LEAF_RULE};
use paper::limits::MOST_STATES;

// Bits of a word of the table.
pub(crate) const WORD_BITS: usize = 64;

impl QueryHead {
    // What can stand behind a rule's label and flag: nothing in a leaf rule, two states in a branch rule.
    fn ends(self) -> usize
        ensures { (result ≡ ends_of self.facts) × (result ≤ most_ends) }
    {
        1 + self.facts.states * self.facts.states
    }

    // The keys of the query. Its own arity and states are the radices, so that a small query has few.
    pub(crate) fn number_of_keys(self) -> usize
        ensures { (result ≡ keys_of self.facts) × (result ≤ most_keys) }
    {
        MOST_STATES + LABELS * self.flags() * self.ends()
    }
}

// A byte as a number.
fn number_at(input: &[u8], at: usize) -> usize
    requires { at < length input.now }
    ensures { (result ≡ get_or input.now at 0) × (result < 256) }
{
    usize::from(input[at])
}

// The key of a rule: its label, its flag, and what stands behind them, as the digits of a
// number above the states.
fn rule_key(input: &[u8], head: QueryHead, at: usize) -> usize
    requires whole { after input.now at ≤ length input.now }
    requires rule { is_rule_kind (get_or input.now at 0) ≡ true }
    ensures { result ≡ key_of head.facts (record_at input.now at) }
{
    let label_and_flag = number_at(input, at + 1) * head.flags() + number_at(input, at + 2);
    let first = MOST_STATES + label_and_flag * head.ends();
    if input[at] == LEAF_RULE {
        return first;
    }
    first + 1 + number_at(input, at + 3) * head.facts.states + number_at(input, at + 4)
}

// The key of a record that fits: that of an accepting state is the state, and what else fits is a rule.
pub(crate) fn record_key(input: &[u8], head: QueryHead, at: usize) -> usize
    requires { FittingAt input.now head.facts at }
    ensures { result ≡ key_of head.facts (record_at input.now at) }
{
    if input[at] == ACCEPTING_STATE {
        return number_at(input, at + 1);
    }
    rule_key(input, head, at)
}

// Whether the table has a key, which is then put in.
pub(crate) fn say(said: &mut [u64], key: usize) -> bool
    requires { key < word_bits * length said.old }
    ensures { SaysKey said.old key result said.new }
{
    let word = key / WORD_BITS;
    let bit = key % WORD_BITS;
    let old = said[word];
    said[word] = old | 1u64 << bit;
    (old >> bit) % 2 == 1
}
