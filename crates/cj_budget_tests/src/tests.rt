//! Rows of limits, lists and stacks: `limits`, `lists` and `stacks`. `growth`: whether growths were
//! failed.
mod checks;
mod growth;
mod limits;
mod lists;
mod stacks;
