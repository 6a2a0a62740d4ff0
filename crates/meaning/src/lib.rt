// What the answer is: definitions in specs/, laws in proofs/. No code.
#![tactic(auto)]
