// GIFT as its designers wrote it: definitions and what is proved of them, for the crates above. Nothing here runs.
#![tactic(auto)]
