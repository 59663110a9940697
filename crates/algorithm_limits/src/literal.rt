//! Literals, in which no name is used and none is bound.

ghost use Rattle.std.specs.Prelude.{◌≡◌, ◌<◌, ◌+◌, true, IsTrue, ◌↔◌, drop, length};
ghost use Rattle.tla_tree.specs.Pool.{trees_at};
ghost use Rattle.tla_pool.specs.FormOf.{form_of};
ghost use Rattle.algorithm_limits.specs.Literals as meant;
ghost use Rattle.algorithm_limits.specs.Literals.{are_literals};

use tla_pool::Pool;
use tla_pool::form::Form;
use tla_tree::NodeId;

// Whether a form is a literal.
fn is_literal(form: &Form) -> bool
    ensures { result ≡ meant.is_literal (form_of form.now) }
{
    matches!(
        form,
        Form::Number(_) | Form::String(_) | Form::Truth(_) | Form::Booleans | Form::Strings
    )
}

/// Whether all that follows the part of this number is one more part, a literal: what is bound around it doesn't matter. A number
/// without a node stands for a literal.
pub fn ends_in_literal(pool: &Pool, parts: &[NodeId], part: usize) -> bool
    requires { part < length parts.now }
    ensures { IsTrue result ↔ (length parts.now ≡ part + 2) × (are_literals (trees_at pool.now (drop (part + 1) parts.now)) ≡ true) }
{
    if parts.len() - part != 2 {
        return false;
    }
    match pool.get(parts[part + 1]) {
        Some(node) => node.parts.len() == 0 && is_literal(&node.form),
        None => true,
    }
}
