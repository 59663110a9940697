//! What is made in memory, since no text spells it: a case of each name.

use crate::formulas::{put_functions, put_over_self};
use crate::scanning::put_rules;
use crate::{pools, values};
use std::alloc::{AllocError, Global};

/// Appends what a case gives.
pub fn put_made(alloc: Global, told: &mut Vec<u8>, case: &str) -> Result<(), AllocError> {
    match case {
        "rules" => put_rules(alloc, told),
        "formula over self" => put_over_self(alloc, told),
        "set of functions" => put_functions(alloc, told),
        "ranks" => pools::put_ranks(alloc, told),
        _ => told.extend_from_slice(if is_so(alloc, case)? { b"yes" } else { b"no" }),
    }
}

// Whether what a case says is so.
fn is_so(alloc: Global, case: &str) -> Result<bool, AllocError> {
    match case {
        "names" => pools::names_are_kept(alloc),
        "texts" => pools::texts_are_kept(alloc),
        "copy of a form" => pools::a_copy_of_a_form_has_the_same_groups(alloc),
        "equal trees" => pools::equal_trees_have_one_number(alloc),
        "parts of a node" => pools::parts_are_seen(alloc),
        "graft" => pools::a_graft_goes_to_each_number_once(alloc),
        "nested sets" => pools::deep_expressions_are_written(alloc),
        _ => Ok(values::is_so(alloc, case)),
    }
}
