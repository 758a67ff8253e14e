// Request P9: one input gives at most ten reports, as many as a list holds. A theorem; there is no code here.
#![tactic(auto)]
