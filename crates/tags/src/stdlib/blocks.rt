pub mod capture_block;
pub mod case_block;
pub mod for_block;
pub mod if_block;
