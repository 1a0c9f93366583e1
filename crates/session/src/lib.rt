// What any receiver is that takes bytes and calls of its owner, and the laws that hold of every one: definitions and proofs, and no code.
#![tactic(auto)]
