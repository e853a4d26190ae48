// Run files: reading one onto a sheet, and performing calls from there on.
#![tactic(auto)]

pub mod head;
mod points;
mod questions;
pub mod run_file;
mod sections;
pub mod theorems;
mod vehicles;

pub use run_file::RunFile;
