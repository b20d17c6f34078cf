// The three demands, of the functions themselves: what their contracts, taken together, promise. There is no code here.
#![tactic(auto)]
