// Sessions are definitions and one theorem: specs/ and proofs/. No code.
#![tactic(auto)]
