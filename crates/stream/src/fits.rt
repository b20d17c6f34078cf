// Whether a record behind the head fits: of a kind that stands there, whole, and its numbers in
// range. It is all that refusal 3 asks of such a record by itself. First the tests of each kind, then
// the decision over the kind, which is a byte of the stream: so the paper wants it.
ghost use Rattle.std.specs.Prelude.{◌≡◌, ◌<◌, length};
ghost use Rattle.stream.specs.OneRecord.{AtKind, whole_in_range, fits};
ghost use Rattle.stream.specs.Positions.{record_at};

use crate::head::QueryHead;
use crate::lengths::body_length;
use paper::kinds::{ACCEPTING_STATE, BRANCH_RULE, LEAF_RULE, QUERY_HEAD};

// A leaf rule that is whole: its label, its flag, the state that it names.
fn leaf_rule_fits(input: &[u8], head: QueryHead, at: usize) -> bool
    requires { AtKind input.now at 17 }
    ensures { result ≡ whole_in_range head.facts (record_at input.now at) }
{
    // Cut: here, as for the other kinds, no number is read before this test.
    if input.len() < at + 1 + body_length(LEAF_RULE) {
        return false;
    }
    head.has_label_and_flag(input[at + 1], input[at + 2]) && head.has_state(input[at + 3])
}

// A branch rule that is whole: its label, its flag, the left, the right and the named state.
fn branch_rule_fits(input: &[u8], head: QueryHead, at: usize) -> bool
    requires { AtKind input.now at 18 }
    ensures { result ≡ whole_in_range head.facts (record_at input.now at) }
{
    if input.len() < at + 1 + body_length(BRANCH_RULE) {
        return false;
    }
    head.has_label_and_flag(input[at + 1], input[at + 2])
        && head.has_state(input[at + 3])
        && head.has_state(input[at + 4])
        && head.has_state(input[at + 5])
}

// An accepting state that is whole.
fn state_fits(input: &[u8], head: QueryHead, at: usize) -> bool
    requires { AtKind input.now at 19 }
    ensures { result ≡ whole_in_range head.facts (record_at input.now at) }
{
    if input.len() < at + 1 + body_length(ACCEPTING_STATE) {
        return false;
    }
    head.has_state(input[at + 1])
}

// Each kind by its own checks.
pub(crate) fn record_fits(input: &[u8], head: QueryHead, at: usize) -> bool
    requires { at < length input.now }
    ensures { result ≡ fits head.facts (record_at input.now at) }
{
    match input[at] {
        LEAF_RULE => leaf_rule_fits(input, head, at),
        BRANCH_RULE => branch_rule_fits(input, head, at),
        ACCEPTING_STATE => state_fits(input, head, at),
        // A second head, a tree record, an unknown kind: as ranges, so that every byte is listed,
        // which is the form that the paper asks for.
        0..=QUERY_HEAD | 20..=255 => false,
    }
}
