// What is promised to those who use the run, as statements about bytes. No code: specs/ has the statements' words, proofs/
// the statements, each of the calls that the contracts of the crates below allow.
#![tactic(auto)]
