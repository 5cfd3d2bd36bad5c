//! The commands, a file each, named by its word (`describe_model`, since a crate is called `describe`). Each file has the
//! function that answers, and the laws of what the answer is for.

pub(crate) mod certify;
pub(crate) mod check;
pub(crate) mod compare;
pub(crate) mod conflicts;
pub(crate) mod describe_model;
pub(crate) mod fuse;
pub(crate) mod narrow;
pub(crate) mod print;
pub(crate) mod reduce;
pub(crate) mod replicate;
pub(crate) mod resume;
pub(crate) mod run;
pub(crate) mod save;
pub(crate) mod trial;
pub(crate) mod uses;
