// Words that the contracts of all crates use: see specs/.
#![tactic(auto)]
