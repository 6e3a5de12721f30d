// Words of definitions that AES and GCM both cite: polynomials over bits.
// There is no code here. `specs/` has the definitions, and `proofs/` their laws.
#![tactic(auto)]
