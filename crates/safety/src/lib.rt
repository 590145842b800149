// Demands 1 and 3 as theorems about the definitions that the contracts cite. specs/Statements.antt says them, proofs/Theorems.antt proves each. Those about the
// discovery fields: specs/Discovery.antt, proofs/Discovery/Theorems.antt.
// There is no code here, and nothing is assumed.
#![tactic(auto)]
