// The travel within the groups of an order, beside the order: definitions and laws alone, no code.

#![tactic(auto)]
