// Request P7: one input gives at most nine reports. A theorem; there is no code here.
#![tactic(auto)]
