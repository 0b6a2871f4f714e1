//! The rules of trees, routes and tables: definitions in specs/, their laws in proofs/. No code.
#![tactic(auto)]
