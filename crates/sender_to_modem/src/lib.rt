// Definitions and proofs only: what k spares buy on a line that loses datagrams, from sender to modem (rules 23.1 to 23.9).

#![tactic(auto)]
