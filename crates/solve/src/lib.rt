// Definitions and proofs only: the held messages as equations over the numbers in view, and the solve call as a function that finds its
// result by elimination (rules 14.1 to 14.9).

#![tactic(auto)]
