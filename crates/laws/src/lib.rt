// General definitions and lemmas: specs/ has the definitions, proofs/ their laws. No code, and nothing of this project.
#![tactic(auto)]
