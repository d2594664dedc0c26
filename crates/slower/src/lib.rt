// M-106, a slower gripper: what calls by two tables, or for two paths, have to do with each other where the second is slower everywhere, or raised.
// Definitions and laws alone, no code.

#![tactic(auto)]
