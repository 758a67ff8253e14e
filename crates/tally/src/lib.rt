// Request P11: pods in, pods out, by document 01's own rows. Theorems; there is no code here.
#![tactic(auto)]
