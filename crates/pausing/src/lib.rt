// What follows from the claim of a poll with a limit: request 10 of document 02. There is no code here: see specs/.
#![tactic(auto)]
