//! The engine in a hall with the desk of a circuit there: each call of a desk is one turn of its pass, which adds entries to
//! those for which the engine stands.

pub mod began;
pub mod crossing;
pub mod desk;
pub mod entrance;
pub mod housed;
pub mod laws;
pub mod taking;
pub mod turns;
