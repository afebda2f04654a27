// No code: the trie over an abstract memory, its invariant, and that every effect of a turn keeps it (proofs/).

#![tactic(auto)]
