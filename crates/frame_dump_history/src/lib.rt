// The dump of a frame machine: that the walk of its memory shows the entered frames and the start, after every list of the exported calls. It is a fact on definitions
// alone: specs/ has the claim, proofs/ the theorem, and there is no code.

#![tactic(auto)]
