// Costs of orders beside the open total: one fork held in a state, places that cost extra, tours, and tables compared with each other.
// Definitions and laws alone, no code.

#![tactic(auto)]
