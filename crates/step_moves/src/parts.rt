//! Parts of values.

ghost use Rattle.pcal_tree.specs.Program.{read_at};
ghost use Rattle.value_forms.specs.Gives.{Gives};

use function_forms::functions::applied;
use tla_token::Place;
use tla_value::stop::EvalStop;
use tla_value::value::Value;

/// What is at a path of a value.
///
/// # Errors
///
/// Exactly where a value on the way is no function, or has no such argument; both at the place.
pub fn part_at<'x>(at: Place, path: &[Value], whole: &'x Value) -> Result<&'x Value, EvalStop>
    ensures { Gives (λ r. r.now) result (read_at at path.now whole.now) }
{
    let mut part = whole;
    for key in path {
        part = applied(at, part, key)?;
    }
    Ok(part)
}
