//! What a run's turns leave as it was: which checks are dangling, which generators have all qubits erased, and which clusters a solve is refused in.
#![tactic(auto)]
