//! Tests of what no clause says: which words ask for what, and how the program refuses others.
//!
//! `options` has the command line, and `calls` what its rows share. A row is one call of a function
//! that checks it. `stack_limit` has the limit of the stack.
mod calls;
mod options;
mod stack_limit;
