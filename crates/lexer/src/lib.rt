// What every text of the product is read by: kinds of bytes, and the pieces that they set apart.
//
// Nothing here is refused: each function is total, whatever places it is handed.
#![tactic(auto)]

pub mod kinds;
pub mod pieces;
