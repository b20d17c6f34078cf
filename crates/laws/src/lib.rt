// The theorems about the definitions of `paper` stand in proofs/, their statements' words in specs/. No code.
#![tactic(auto)]
