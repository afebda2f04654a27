// No code: the definitions of document 01 (specs/) and what is proved of them (proofs/).
// Relies on words, settings, areas and record for what the definitions are over, on trie for the theory.

#![tactic(auto)]
