// The head of the query. First what is answered of a query, then the reading of its head, which is
// refused 3 or gives the arity and the states by which the records behind it are judged.
ghost use Rattle.std.specs.Prelude.{◌&&◌, ◌≡◌, ◌^◌, ◌≤◌, leb, ltb, length, IfOk};
ghost use Rattle.paper.specs.Answers.{no_of_stream, says, told};

use crate::lengths::body_length;
use paper::StreamRefusal;
use paper::kinds::QUERY_HEAD;
use paper::limits::{HIGHEST_LABEL, MOST_PLACES, MOST_STATES};

// The query's arity and states, and where the records behind its head begin.
#[derive(Clone, Copy, Debug, PartialEq, Eq)]
pub struct QueryFacts {
    pub arity: usize,
    pub states: usize,
    pub rules: usize,
}

// The numbers of a head that was read, which are in range. They are in `QueryFacts` without that, as
// the definitions have them of every input. The input stays beside it: here as elsewhere in the room a
// record is told by the input and a position.
#[derive(Clone, Copy, Debug, PartialEq, Eq)]
pub(crate) struct QueryHead {
    pub(crate) facts: QueryFacts,
    ghost few_places: { facts.arity ≤ 4 },
    ghost few_states: { facts.states ≤ 16 },
}

impl QueryHead {
    ghost use Rattle.stream.specs.Keys.{most_flags, flags_of};
    ghost use Rattle.stream.specs.OneRecord.{head_reply};

    // Every fault of a head is refused 3, so the order of the tests is free but for this: a byte is
    // read behind the test that it is there.
    pub(crate) fn read(input: &[u8], at: usize) -> Result<Self, StreamRefusal>
        ensures answer { told (λ h. h.facts) (says no_of_stream result) ≡ head_reply input.now at }
        ensures inside { IfOk result (λ h. h.facts.rules ≤ length input.now) }
    {
        // A tree with no query.
        if input.get(at) != Some(&QUERY_HEAD) {
            return Err(StreamRefusal::Query(at));
        }
        // Cut. Behind this test both numbers can be read.
        let rules = at + 1 + body_length(QUERY_HEAD);
        if input.len() < rules {
            return Err(StreamRefusal::Query(at));
        }
        let arity = usize::from(input[at + 1]);
        let states = usize::from(input[at + 2]);
        if !(1..=MOST_PLACES).contains(&arity) || !(1..=MOST_STATES).contains(&states) {
            return Err(StreamRefusal::Query(at));
        }
        Ok(QueryHead {
            facts: QueryFacts {
                arity,
                states,
                rules,
            },
        })
    }

    // The flags of the query.
    pub(crate) fn flags(self) -> usize
        ensures { (result ≡ flags_of self.facts) × (result ≤ most_flags) }
    {
        1usize << self.facts.arity
    }

    // Whether a state is one of the query's.
    pub(crate) fn has_state(self, state: u8) -> bool
        ensures { result ≡ ltb state self.facts.states }
    {
        usize::from(state) < self.facts.states
    }

    // Whether a rule may have a label and a flag.
    pub(crate) fn has_label_and_flag(self, label: u8, flag: u8) -> bool
        ensures { result ≡ leb label 63 && ltb flag (2 ^ self.facts.arity) }
    {
        label <= HIGHEST_LABEL && usize::from(flag) < self.flags()
    }
}
