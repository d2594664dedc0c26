// Shortest walks through layered graphs, for every graph: definitions and laws alone, no code. What is proved of the planner's method
// rests on these, and knows nothing of trees.

#![tactic(auto)]
