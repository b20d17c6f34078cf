// Laws of walks, and no code: how a function that holds a lent slice of structs is proved by a walk of its code. Rattle writes that part of a
// proof by itself today (docs/DECISIONS.md, 118 and 119), so that no function rests on these. In the order of reading, proofs/
// has the kit's names (Prelude), what walks are made of (Steps, Locals, Loops, Parameters, Contracts, Lending, Entries, Arrays, Values,
// States), what a call is lent (Arguments) and a line of calls (Lines), a function that is such a line (Functions), a loop of such turns
// (Turning), the reading of an entry (Reading), and a law for each shape of loop (Asking; Storing, for Building and Copying).
#![tactic(auto)]
