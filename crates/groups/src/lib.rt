// Exchanges of forks: that they add up, and which blocks of places they swap. Definitions and laws alone, no code.

#![tactic(auto)]
