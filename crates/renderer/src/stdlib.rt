pub(crate) mod blocks;
pub(crate) mod leaf_tags;
pub(crate) mod output;
