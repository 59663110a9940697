//! The formulas of fairness of Spec, whose conjuncts stand in their order.

ghost use Rattle.std.specs.Prelude.{◌≡◌, ◌≤◌, IfNone, IfOk, IfSome, List, length};
ghost use Rattle.tla_token.specs.declared.place.Place.{Place};
ghost use Rattle.tla_tree.specs.Pool.{Keeps};
ghost use Rattle.expr_nodes.specs.Ahead.{ahead};
ghost use Rattle.expr_nodes.specs.ReadIn.{Told};
ghost use Rattle.module_write.specs.declared.«module».Fairness as code_fairness;
ghost use Rattle.region_items.specs.Begins.{MayBegin, bound};
ghost use Rattle.region_calls.specs.Order.{in_order, IsSpecUnit, spec_behind};

use crate::bulleted::spec_lines;
use crate::fairness::SpecLine;
use expr_nodes::cursor::Halt;
use expr_nodes::spot::{Spot, refused};
use module_write::module::Fairness;
use std::alloc::{AllocError, Global};
use tla_pool::Pool;
use tla_token::{Rule, Tokens};

/// The formulas of fairness of Spec, where its conjuncts are `Init`, `[][Next]_vars`, and such formulas.
///
/// # Errors
///
/// Only for want of memory.
pub fn formulas(alloc: Global, lines: Vec<SpecLine>) -> Result<Option<Vec<Fairness>>, AllocError>
    ensures some { IfOk result (λ r. IfSome r (λ v. lines.items ≡ in_order v.items)) }
    ensures none { IfOk result (λ r. IfNone r ((fs : List code_fairness.Fairness) → lines.items ≡ in_order fs → ⊥)) }
{
    let mut formulas = Vec::new(alloc);
    // how many came that are no formulas
    let mut others = 0usize;
    for line in lines {
        match line {
            SpecLine::Start if others == 0 => others = 1,
            SpecLine::Steps if others == 1 => others = 2,
            SpecLine::Fair(formula) if others == 2 => formulas.push(formula)?,
            _ => return Ok(None),
        }
    }
    if others < 2 {
        return Ok(None);
    }
    Ok(Some(formulas))
}

/// The formulas of fairness of Spec, behind `Spec ==`.
///
/// # Errors
///
/// The rule by which it is refused, and how many tokens are left from there on; or want of memory.
pub fn spec(
    alloc: Global,
    tokens: &Tokens,
    pool: &mut Pool,
    s: Spot,
) -> Result<(Vec<Fairness>, usize), Halt>
    requires given { MayBegin tokens.now s }
    ensures read { (p q : Place) → Told (λ x u. IsSpecUnit pool.new x.0.items u) (λ x. ahead tokens.now x.1) result (spec_behind (bound s.left) p q (ahead tokens.now s.at)) }
    ensures kept { Keeps pool.old pool.new }
    ensures inside { IfOk result (λ x. x.1 ≤ length tokens.now.items.items) }
    ensures further { IfOk result (λ x. s.at ≤ x.1) }
{
    let (lines, at) = spec_lines(alloc, tokens, pool, s)?;
    let Some(list) = formulas(alloc, lines)? else {
        return Err(refused(tokens, Spot { at, ..s }, Rule::Syntax));
    };
    Ok((list, at))
}
