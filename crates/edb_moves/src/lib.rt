//! What an expression of the whole language does, move by move: the definitions stand in specs/, and the crates above
//! have the code.
#![tactic(auto)]
