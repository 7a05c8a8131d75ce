// Definitions and proofs alone: formats over bits, in which one description says what is read and what is written.

#![tactic(auto)]
