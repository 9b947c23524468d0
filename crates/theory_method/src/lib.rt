// Document 01's method over codes: definitions and their laws. No code.
#![tactic(auto)]
