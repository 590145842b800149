// Laws about the definitions of `rules`, each stated once, for the proofs of the code and for the theorems. They are in proofs/; specs/ has what contracts
// of inner functions cite and is no sentence of document 01. There is no code here, and nothing is assumed.
#![tactic(auto)]
