// Demand 3 as theorems: what is asked of the compressor and the expander, sentence by sentence, about the definitions that
// their contracts cite. There is no code here: specs/WellFormed.antt has what is asked of a list, and proofs/Demand.antt,
// and proofs/DemandBytes.antt for lists in bytes, what holds of it.

#![tactic(auto)]
