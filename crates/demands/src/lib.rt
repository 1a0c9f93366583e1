// What is claimed of the channel over whole sessions: definitions and proofs, and no code.
#![tactic(auto)]
