// The promises of a bench over every history of calls: definitions and laws, nothing to run.
#![tactic(auto)]
