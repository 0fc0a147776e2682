// No code: the theorems about triangles, areas and exact volumes are stated in specs/ and proved in proofs/.
#![tactic(auto)]
