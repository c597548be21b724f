// What follows from the claims alone, over any call and any run of calls. There is no code here: see specs/.
#![tactic(auto)]
