// The query: refusals 3 and 4, or its numbers. First the records behind the head, then the query with
// its head.
ghost use Rattle.std.specs.Prelude.{[], ◌≡◌, ◌*◌, ◌≤◌, length};
ghost use Rattle.stream.specs.OneRecord.{later_reply};
ghost use Rattle.stream.specs.Keys.{TableOf, keys_of, word_bits, large_table};
ghost use Rattle.stream.specs.Reading.{says_query, query_reply};

use crate::fits::record_fits;
use crate::head::{QueryFacts, QueryHead};
use crate::keys::{WORD_BITS, record_key, say};
use crate::lengths::body_length;
use paper::StreamRefusal;
use paper::kinds::ACCEPTING_STATE;
use paper::limits::MOST_RULES;

// All records behind the head, with a table that has no key yet. There may be none: a query with no
// rule, or with no accepting state, gives the empty set.
fn each_record(input: &[u8], head: QueryHead, said: &mut [u64]) -> Result<QueryFacts, StreamRefusal>
    requires inside { head.facts.rules ≤ length input.now }
    requires table_of { TableOf head.facts [] said.old }
    ensures { says_query result ≡ later_reply input.now head.facts }
{
    let mut at = head.facts.rules;
    let mut rules = 0;
    // A `while`, as records differ in length. It ends with the input, or by the first record at fault:
    // a turn steps over one record that is whole, so never behind the end.
    while at < input.len() {
        // 3 before 4: whether a record fits is asked before what the earlier ones say.
        if !record_fits(input, head, at) {
            return Err(StreamRefusal::Query(at));
        }
        // What fits and is no accepting state is a rule of either kind.
        if input[at] != ACCEPTING_STATE {
            if MOST_RULES <= rules {
                return Err(StreamRefusal::Query(at));
            }
            rules += 1;
        }
        if say(said, record_key(input, head, at)) {
            return Err(StreamRefusal::Twice(at));
        }
        at += 1 + body_length(input[at]);
    }
    Ok(head.facts)
}

// The words of three tables. A table is cleared whole where it is made, and that is not to be felt by
// a small query: so it is the least of the three that has a bit for each key.
// For arity 2 with 4 states, which has 4,368 keys, and up to 8,192: 1 KiB is cleared in some 15 ns.
const SMALL_TABLE: usize = 128;
// For arity 2 with 16 states, which has 65,808 keys, and arity 4 with 8, which has 66,576.
const MIDDLE_TABLE: usize = 1041;
// For arity 4 with 16 states, the most: 263,184 keys.
const LARGE_TABLE: usize = 4113;

// All records behind the head, with a new table of so many words.
fn with_table<const WORDS: usize>(
    input: &[u8],
    head: QueryHead,
) -> Result<QueryFacts, StreamRefusal>
    requires inside { head.facts.rules ≤ length input.now }
    requires room { keys_of head.facts ≤ word_bits * WORDS }
    requires words_bound { WORDS ≤ large_table }
    ensures { says_query result ≡ later_reply input.now head.facts }
{
    let mut said: [u64; WORDS] = [0; WORDS];
    each_record(input, head, &mut said)
}

// All of the query whose head stands at a position: refusals 3 and 4.
pub fn read_query(input: &[u8], at: usize) -> Result<QueryFacts, StreamRefusal>
    ensures { says_query result ≡ query_reply input.now at }
{
    let head = QueryHead::read(input, at)?;
    // The least table that does.
    let keys = head.number_of_keys();
    if keys <= WORD_BITS * SMALL_TABLE {
        return with_table::<SMALL_TABLE>(input, head);
    }
    if keys <= WORD_BITS * MIDDLE_TABLE {
        return with_table::<MIDDLE_TABLE>(input, head);
    }
    with_table::<LARGE_TABLE>(input, head)
}
