// The vocabulary of the contracts is in specs/, its laws in proofs/. No code.
#![tactic(auto)]
