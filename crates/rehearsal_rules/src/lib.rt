//! The rules of packets that move over the tables: definitions in specs/, their laws in proofs/. No code.
#![tactic(auto)]
