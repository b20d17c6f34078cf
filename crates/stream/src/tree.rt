// The tree: refusals 1 and 2, or its numbers.
ghost use Rattle.std.specs.Prelude.{◌≡◌};
ghost use Rattle.stream.specs.OneRecord.{is_tree_at};
ghost use Rattle.stream.specs.Reading.{says_tree, tree_reply};

use crate::lengths::body_length;
use paper::StreamRefusal;
use paper::kinds::{BRANCH, LEAF};
use paper::limits::{HIGHEST_LABEL, MOST_NODES};

// Where the tree ends, how many nodes it has, and the most subtrees ever unjoined, by which the
// work of a build is measured.
#[derive(Clone, Copy, Debug, PartialEq, Eq)]
pub struct TreeFacts {
    pub end: usize,
    pub nodes: usize,
    pub most: usize,
}

fn is_tree_record(input: &[u8], at: usize) -> bool
    ensures { result ≡ is_tree_at input.now at }
{
    // The tree may end with the input: that there is no query then is not the tree's fault.
    matches!(input.get(at), Some(&(LEAF | BRANCH)))
}

// All of the tree: refusals 1 and 2. How many subtrees are unjoined is enough for them: which ones a
// branch joins decides none. The loop is a `while`, as a record is as long as its kind says. It ends by
// the first kind that is not the tree's, with the input, or by the first record at fault: what comes
// later cannot change the refusal.
pub fn read_tree(input: &[u8]) -> Result<TreeFacts, StreamRefusal>
    ensures { says_tree result ≡ tree_reply input.now }
{
    let mut at = 0;
    let mut nodes = 0;
    let mut unjoined = 0;
    let mut most = 0;
    while is_tree_record(input, at) {
        // 2 before 1: the 4,096th tree kind is seen before its body.
        if MOST_NODES <= nodes {
            return Err(StreamRefusal::ManyNodes(at));
        }
        // Cut, or a label that no node has, which is read behind the test that it is there.
        let next = at + 1 + body_length(input[at]);
        if input.len() < next || HIGHEST_LABEL < input[at + 1] {
            return Err(StreamRefusal::Tree(at));
        }
        // A leaf is one subtree more. A branch makes one of the last two.
        if input[at] == LEAF {
            unjoined += 1;
            most = most.max(unjoined);
        } else if unjoined < 2 {
            return Err(StreamRefusal::Tree(at));
        } else {
            unjoined -= 1;
        }
        nodes += 1;
        at = next;
    }
    // With no node there is no subtree, so one subtree at the end is all that is asked here.
    if unjoined != 1 {
        return Err(StreamRefusal::Tree(at));
    }
    Ok(TreeFacts {
        end: at,
        nodes,
        most,
    })
}
