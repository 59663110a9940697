//! What a syntax spells in its own way: bodies, which process it is, and `define`.

ghost use Rattle.std.specs.Prelude.{ℕ, ◌<◌, ◌≤◌, IfOk, length};
ghost use Rattle.tla_token.specs.ReservedWords.{pluscal_spelling};
ghost use Rattle.tla_token.specs.declared.place.Place as placed;
ghost use Rattle.tla_tree.specs.Pool.{Keeps};
ghost use Rattle.expr_nodes.specs.Ahead.{ahead};
ghost use Rattle.tla_expr.specs.Numbers.{NumbersFit};
ghost use Rattle.pcal_tree.specs.Grammar.{body_tree, defined};
ghost use Rattle.syntax_reading.specs.TokenReaders.{Parts};
ghost use Rattle.syntax_reading.specs.ReadRoutines as reader;
ghost use Rattle.algorithm_reader.specs.PartsRead.{ReadsPart, parts_in, Enough, all_defined_at, past_all_defined};
ghost use Rattle.algorithm_reader.specs.RoutinesRead.{body_at, past_body, identity_at, past_identity, identity_tree};

use expr_nodes::cursor::Halt;
use pcal_tree::algorithm::{Definition, Stmt};
use std::alloc::Global;
use tla_pool::Pool;
use tla_token::{PluscalWord, Tokens};
use tla_tree::{NodeId, PlacedName};

/// Readers of what the two syntaxes spell in their own ways.
pub trait Ways {
    /// The same as functions of tokens.
    ghost readers: { Parts → reader.Ways };

    /// The body of a macro, a procedure or a process, by that word.
    ///
    /// # Errors
    ///
    /// Where a token is next that can't be there, or at which too many forms are open; or for want of memory.
    fn body(
        alloc: Global,
        tokens: &Tokens,
        pool: &mut Pool,
        at: usize,
        word: PluscalWord,
    ) -> Result<(Vec<Stmt>, usize), Halt>
        requires there { at ≤ length tokens.now.items.items }
        requires numbers { NumbersFit tokens.now }
        ensures read { (n : ℕ) → Enough tokens.now at n → ReadsPart body_at past_body body_tree tokens.now pool.new result ((readers (parts_in tokens.now)).body n (pluscal_spelling word) (ahead tokens.now at)) }
        ensures kept { Keeps pool.old pool.new }
        ensures inside { IfOk result (λ x. x.1 ≤ length tokens.now.items.items) }
        ensures further { IfOk result (λ x. at ≤ x.1) };

    /// Which process it is: its name, whether there are several, and the set of their identifiers or the one.
    ///
    /// # Errors
    ///
    /// As of `body`.
    fn identity(
        alloc: Global,
        tokens: &Tokens,
        pool: &mut Pool,
        at: usize,
    ) -> Result<((PlacedName, bool, NodeId), usize), Halt>
        requires there { at ≤ length tokens.now.items.items }
        requires numbers { NumbersFit tokens.now }
        ensures read { ReadsPart identity_at past_identity identity_tree tokens.now pool.new result ((readers (parts_in tokens.now)).identity (ahead tokens.now at)) }
        ensures kept { Keeps pool.old pool.new }
        ensures inside { IfOk result (λ x. x.1 ≤ length tokens.now.items.items) }
        ensures further { IfOk result (λ x. at < x.1) };

    /// The definitions of `define`, behind that word.
    ///
    /// # Errors
    ///
    /// As of `body`.
    fn definitions(
        alloc: Global,
        tokens: &Tokens,
        pool: &mut Pool,
        at: usize,
    ) -> Result<(Vec<Definition>, usize), Halt>
        requires there { at ≤ length tokens.now.items.items }
        requires numbers { NumbersFit tokens.now }
        ensures read { (n : ℕ) (p : placed.Place) → Enough tokens.now at n → ReadsPart all_defined_at past_all_defined defined tokens.now pool.new result ((readers (parts_in tokens.now)).define n p (ahead tokens.now at)) }
        ensures kept { Keeps pool.old pool.new }
        ensures inside { IfOk result (λ x. x.1 ≤ length tokens.now.items.items) }
        ensures further { IfOk result (λ x. at ≤ x.1) };
}
