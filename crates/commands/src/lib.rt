// The register commands: free functions, since the record is another crate's type. None of them changes the record.
// Each tests it first, 9 where it is not sound, and then goes by its link. What several of them share is inlined in each.
#![tactic(auto, using(crate::proofs::Steps::steps))]

pub mod balancing;
pub mod by_record;
pub mod control;
pub mod counter;
mod register;
pub mod ship;
pub mod status;
pub mod switches;
