// Test trees as bracketed text, and their images: what the readers of the two are (specs/), and the theorems (proofs/). No code.
#![tactic(auto)]
