//! What every structure in normalized form has to prove, proved once: lemmas that are generic in the form, for the
//! proofs of its laws.
#![tactic(auto)]
