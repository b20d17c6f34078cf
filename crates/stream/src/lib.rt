// Reading the input stream of document 01, one file a subject. The two readers answer with refusals
// 1 to 4, or with the numbers that a build goes on with (specs/Reading.antt). `list_rules`
// lists the rules once, and the readers of the lists find them (specs/RuleLists.antt). What is asked of
// one record in between stands in specs/OneRecord.antt.
#![tactic(auto)]

mod fits; // whether a record behind the query's head is whole and in range
mod head; // the query's head
mod keys; // what the query's records say once, as a table of bits
mod lengths; // the length of a body, by its kind
mod lists; // the rules of each symbol in lists, and the accepting states
mod query; // the records behind the head, and all of the query
mod tree; // the tree

// Callers name these by the crate alone: in which file one stands is not their matter.
pub use head::QueryFacts;
pub use lengths::body_length;
pub use lists::{LIST_NUMBERS, accepts, first_rule, list_rules, rule_after};
pub use query::read_query;
pub use tree::{TreeFacts, read_tree};
