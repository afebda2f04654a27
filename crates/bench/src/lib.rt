// No code: document 01's bench cases P1 to P12 and rows of document 02 as a table over the definitions (specs/), and its proof (proofs/).
// Relies on rules for the definitions.

#![tactic(auto)]
