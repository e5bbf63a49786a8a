#![tactic(auto)]

// What rows and files are is in specs/; what is known of them in proofs/.
