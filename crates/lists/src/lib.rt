// Lists and tests on them: definitions in specs/, laws in proofs/. There is no code here.
#![tactic(auto)]
