//! Cases of the front of the compiler: from texts to tokens, trees, typed trees, copies, sizes and addresses, and values of integers.
//!
//! In: texts of C, each on a line of a table behind what is wanted of it, which was worked out by hand. Out: nothing; these are tests of c_token,
//! c_pre, c_nodes, c_tree, parse_expr, c_parse, c_ints, c_tables, c_terms, c_operate, c_outline, check_expr, c_check, call_graph, ram_place, code_place and picc_core's `front` and `compile84`.
#![tactic(auto)]

#[cfg(test)]
mod answers;
#[cfg(test)]
mod integers;
#[cfg(test)]
mod notation;
#[cfg(test)]
mod placing;
#[cfg(test)]
mod printed;
#[cfg(test)]
mod reading;
#[cfg(test)]
mod rules;
#[cfg(test)]
mod second;
#[cfg(test)]
mod sizes;
#[cfg(test)]
mod stages;
#[cfg(test)]
mod typed_trees;
