// Plants moved to the ranged form and home again, and what the two calls promise. No function stands here.

#![tactic(auto)]
