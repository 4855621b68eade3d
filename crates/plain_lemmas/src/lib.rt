//! Lemmas that name nothing of this repository: whole numbers, lists, membership, the order of lists.
//!
//! The crate has no code and stands on std alone. A lemma stands here where the proofs of two crates or more need
//! it and std does not have it; one that std has is cited from std. The layers above cite the modules of `proofs/`,
//! each named after its subject, and a lemma is named for its left side or, where it follows from facts, for what
//! it gives. Nothing here is promised by a contract: a lemma that stood here and were wrong would not be proved.
#![tactic(auto)]
