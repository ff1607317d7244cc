//! How the tables that a trial keeps follow its state: the definitions stand in specs/, why they are right in proofs/.
#![tactic(auto)]
