//! The rules of descriptions of a net: definitions in specs/, their laws in proofs/. No code.
#![tactic(auto)]
