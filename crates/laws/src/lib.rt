// No code: what follows from the definitions of `model` alone. The statements are in proofs/, a module to a subject.
#![tactic(auto)]
