// What is claimed of a session and the board together: definitions and proofs, and no code.
#![tactic(auto)]
