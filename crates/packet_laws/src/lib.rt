// Definitions and proofs alone: a packet octet by octet, as the code reads and writes it, proved to be what `packet` describes.

#![tactic(auto)]
