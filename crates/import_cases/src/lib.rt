#![tactic(auto)]

// Whole imports in specs/, computed in proofs/: those of all units (document 02, E11) and those with range lists (E9).
