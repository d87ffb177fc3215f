// A plant without ranges has the same sheet in the ranged form; two mixed plants that have not. No function stands here.

#![tactic(auto)]
