// Request P10: which inputs take each other back, in the whole machine. Theorems; there is no code here.
#![tactic(auto)]
