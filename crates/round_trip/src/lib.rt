// What is claimed of the sender and the receiver together: definitions and proofs, and no code.
#![tactic(auto)]
