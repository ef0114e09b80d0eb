// Where arguments and frames meet: the two families' numbers of a convention, and a plan's parameter area as the outgoing area of a frame. These are facts on definitions
// alone: there is no code.

#![tactic(auto)]
