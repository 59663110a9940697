//! The values of the parts of a form, by how many there are.

ghost use Rattle.eval_operators.specs.Operands.{AreOperands};

use eval_scopes::got::Got;

/// One value, two or three, or some other number of them.
#[derive(Drop)]
pub enum Operands<'x> {
    One(Got<'x>),
    Two(Got<'x>, Got<'x>),
    Three(Got<'x>, Got<'x>, Got<'x>),
    Other,
}

/// Values by how many there are.
pub fn by_count<'x>(mut values: Vec<Got<'x>>) -> Operands<'x>
    ensures { AreOperands result values.entry.items }
{
    if values.len() > 3 {
        return Operands::Other;
    }
    let Some(last) = values.pop() else {
        return Operands::Other;
    };
    let Some(second) = values.pop() else {
        return Operands::One(last);
    };
    let Some(first) = values.pop() else {
        return Operands::Two(second, last);
    };
    Operands::Three(first, second, last)
}
