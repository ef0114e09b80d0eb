// Both planners agree on every byte string: theorems alone, on the definitions that the contracts of `plan_of` and `second_plan_of` cite. specs/ has
// what is proved, and there is no code.

#![tactic(auto)]
