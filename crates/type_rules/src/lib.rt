//! The rules on names and types, as definitions.
//!
//! In: nothing; the crate has definitions alone. Out: nothing.
//! The definitions say, for each tree of a text, its typed tree, or the first rule that it breaks: one definition for each kind
//! of node, over what is known where the node stands. The promise: none by itself. The checker (c_operate, check_expr, c_check) is proved to give
//! what they say, and a check runs both on the same texts.
#![tactic(auto)]
