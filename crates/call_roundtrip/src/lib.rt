// Reading, home and views: theorems alone, about the definitions that the contracts of `fill`, `read` and `home` cite.

#![tactic(auto)]
