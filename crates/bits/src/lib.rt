// The bits of a word: definitions and laws for the crates above. Nothing here runs.
#![tactic(auto)]
