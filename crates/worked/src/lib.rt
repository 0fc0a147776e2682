// No code: the rows worked by hand are a table in specs/, and proofs/ proves that the definitions give what it states.
#![tactic(auto)]
