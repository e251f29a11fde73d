pub(crate) mod capture_block;
pub(crate) mod case_block;
pub(crate) mod for_block;
pub(crate) mod if_block;
pub(crate) mod ifchanged_block;
pub(crate) mod tablerow_block;
