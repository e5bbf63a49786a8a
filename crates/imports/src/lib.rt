#![tactic(auto)]

// What an import must answer is in specs/; the theorem that its answers meet the demand is in proofs/.
