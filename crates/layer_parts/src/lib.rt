//! What a layer of blocks means: the parts of its table, its layout and its pieces, and the facts on them that its code is
//! proved with. There is no code here: the definitions stand in specs/, the lemmas in proofs/.

#![tactic(auto)]
