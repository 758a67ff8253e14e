// Request P11: pods in, pods out, of the whole machine. Theorems; there is no code here.
#![tactic(auto)]
