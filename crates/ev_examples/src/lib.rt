//! Worked examples of the definitions: documents, scripts, words and bytes whose results are
//! computed. In `proofs/`.
#![tactic(auto)]
