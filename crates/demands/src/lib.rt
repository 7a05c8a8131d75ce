// Definitions and proofs only: the demands on the whole library (rules 28.1 to 28.16), stated over the promises of the public calls.

#![tactic(auto)]
