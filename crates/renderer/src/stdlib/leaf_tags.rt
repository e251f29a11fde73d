pub(crate) mod assign_tag;
pub(crate) mod cycle_tag;
pub(crate) mod increment_tags;
pub(crate) mod interrupt_tags;
