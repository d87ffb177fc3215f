// What a case is made of, and the readers and writers of files that cases try.
#![tactic(auto)]

pub mod cases;
pub mod kept;
pub mod plant_files;
