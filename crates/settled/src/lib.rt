// No code: the theorems that every public function's contract settles its calls stand in proofs/.
#![tactic(auto)]
