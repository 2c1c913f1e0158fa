#![tactic(auto)]

// Mathematics that knows nothing of music. No code: definitions stand in specs/, theorems in proofs/.
