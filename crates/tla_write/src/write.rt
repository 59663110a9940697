//! The written text of an expression.

ghost use Rattle.std.specs.Prelude.{◌≡◌, ◌<◌, ◌≤◌, ◌+◌, ◌++◌, decimal, ◌∷◌, [], suc, true, drop, length, IfOk, OnOk, OnErr};
ghost use Rattle.tla_pool.specs.FormOf.{steps_of, slots_of, strict_of, groups_of, form_of};
ghost use Rattle.tla_tree.specs.Lexical as tk;
ghost use Rattle.tla_tree.specs.Lexical.{token_text, op_text, escaped};
ghost use Rattle.tla_tree.specs.Tree as tree;
ghost use Rattle.tla_tree.specs.Shapes.{Shaped, StrictShaped, CaseShaped, operands, subscripts, settings};
ghost use Rattle.tla_tree.specs.Rank.{is_prefix};
ghost use Rattle.tla_tree.specs.Written as pure;
ghost use Rattle.tla_tree.specs.Written.{spaced, prefix_sign, infix_sign, infix_pieces, listed, field_pieces, name_pieces, bind_pieces, binding_pieces, definition_pieces, local_pieces, strict_pieces, arm_pieces, form_pieces, part, written, text_of, as_operand};
ghost use Rattle.tla_write.specs.Ahead.{Stands, PutsAhead, Begins, Goes};
ghost use Rattle.tla_write.specs.Writing.{shown, quantifier_pieces, record_pieces, fixed_token, item_pieces, Adds, Puts, PutsPath, slots_behind, PutsArms, IsTwice, comma_items, blank_items, box_items, parts_of, Writes};
ghost use Rattle.tla_tree.specs.Pool.{at};
ghost use Rattle.tla_write.specs.declared.write.Item.TheVariants.{Blank};

use std::alloc::{AllocError, Global};
use tla_pool::form::{Form, Slot, Step, Strict};
use tla_pool::{Pool, Seen};
use tla_tree::{Binder, Name, NameList, NodeId, Op, PlacedName, Text};

/// Tokens that are written in one way.
#[derive(Clone, Copy)]
enum Fixed {
    OpenBracket,
    CloseBracket,
    OpenSquare,
    CloseSquare,
    OpenBrace,
    CloseBrace,
    OpenTuple,
    CloseTuple,
    Comma,
    Colon,
    Dot,
    Bang,
    Arrow,
    Maps,
    Defines,
    NextArm,
    Prime,
    If,
    Then,
    Else,
    Case,
    Other,
    Let,
    In,
    Except,
    ForAll,
    Exists,
    True,
    False,
    Booleans,
    Strings,
}

/// What is written of a form: a blank, a token, or a part, as an operand or not.
#[derive(Clone, Copy)]
enum Item<'a> {
    Blank,
    Fixed(Fixed),
    Sign(Op),
    Word(&'a Name),
    Field(&'a Name),
    Number(&'a u128),
    Quote(&'a Text),
    Part(usize, bool),
}

/// What is still to be written: an item that is no part, or an expression, as an operand or not.
#[derive(Drop)]
enum Ahead<'a> {
    Item(Item<'a>),
    Part(Seen<'a>, bool),
}

fn fixed_bytes(f: Fixed) -> &'static [u8]
    ensures { result.now ≡ token_text (fixed_token f) }
{
    match f {
        Fixed::OpenBracket => b"(",
        Fixed::CloseBracket => b")",
        Fixed::OpenSquare => b"[",
        Fixed::CloseSquare => b"]",
        Fixed::OpenBrace => b"{",
        Fixed::CloseBrace => b"}",
        Fixed::OpenTuple => b"<<",
        Fixed::CloseTuple => b">>",
        Fixed::Comma => b",",
        Fixed::Colon => b":",
        Fixed::Dot => b".",
        Fixed::Bang => b"!",
        Fixed::Arrow => b"->",
        Fixed::Maps => b"|->",
        Fixed::Defines => b"==",
        Fixed::NextArm => b"[]",
        Fixed::Prime => b"'",
        Fixed::If => b"IF",
        Fixed::Then => b"THEN",
        Fixed::Else => b"ELSE",
        Fixed::Case => b"CASE",
        Fixed::Other => b"OTHER",
        Fixed::Let => b"LET",
        Fixed::In => b"IN",
        Fixed::Except => b"EXCEPT",
        Fixed::ForAll => b"\\A",
        Fixed::Exists => b"\\E",
        Fixed::True => b"TRUE",
        Fixed::False => b"FALSE",
        Fixed::Booleans => b"BOOLEAN",
        Fixed::Strings => b"STRING",
    }
}

fn sign_bytes(op: Op) -> &'static [u8]
    ensures { result.now ≡ op_text op }
{
    match op {
        Op::Implies => b"=>",
        Op::Equivalent => b"<=>",
        Op::And => b"/\\",
        Op::Or => b"\\/",
        Op::Not => b"~",
        Op::Equal => b"=",
        Op::NotEqual => b"#",
        Op::Less => b"<",
        Op::Greater => b">",
        Op::AtMost => b"<=",
        Op::AtLeast => b">=",
        Op::In => b"\\in",
        Op::NotIn => b"\\notin",
        Op::SubsetEq => b"\\subseteq",
        Op::Override => b"@@",
        Op::MapsTo => b":>",
        Op::Cup => b"\\cup",
        Op::Cap => b"\\cap",
        Op::Without => b"\\",
        Op::Subset => b"SUBSET",
        Op::Union => b"UNION",
        Op::Range => b"..",
        Op::Domain => b"DOMAIN",
        Op::Plus => b"+",
        Op::Modulo => b"%",
        Op::Minus | Op::Negate => b"-",
        Op::Times => b"*",
        Op::Concat => b"\\o",
        Op::Divide => b"\\div",
    }
}

// Whether the form is in brackets as an operand.
fn is_bracketed(form: &Form) -> bool
    ensures { result ≡ pure.is_bracketed (form_of form.now) }
{
    match form {
        Form::Strict(Strict::Operator(_)) => true,
        Form::Conjunction | Form::Disjunction | Form::Implication | Form::Member(_) => true,
        Form::IfThenElse | Form::Cases(_) | Form::Local(_) => true,
        Form::Binding(Binder::ForAll | Binder::Exists, _) => true,
        _ => false,
    }
}

fn truth(sense: bool) -> Fixed
    ensures { fixed_token result ≡ tk.constant (tk.truth sense) }
{
    if sense { Fixed::True } else { Fixed::False }
}

// ---- items, from the last one to the first

fn put_comma_if(more: bool, plan: &mut Vec<Item<'_>>) -> Result<(), AllocError>
    ensures { OnOk result (plan.new.items ≡ plan.old.items ++ comma_items more) }
{
    if more {
        plan.extend_from_slice(&[Item::Blank, Item::Fixed(Fixed::Comma)])?;
    }
    Ok(())
}

fn put_box_if(more: bool, plan: &mut Vec<Item<'_>>) -> Result<(), AllocError>
    ensures { OnOk result (plan.new.items ≡ plan.old.items ++ box_items more) }
{
    if more {
        put_spaced(Item::Fixed(Fixed::NextArm), plan)?;
    }
    Ok(())
}

fn put_spaced<'a>(item: Item<'a>, plan: &mut Vec<Item<'a>>) -> Result<(), AllocError>
    ensures { OnOk result (plan.new.items ≡ plan.old.items ++ (Blank ∷ item.entry ∷ Blank ∷ [])) }
{
    plan.extend_from_slice(&[Item::Blank, item, Item::Blank])?;
    Ok(())
}

fn put_prefix_sign(op: Op, plan: &mut Vec<Item<'_>>) -> Result<(), AllocError>
    ensures { OnOk result (Adds plan.old.items plan.new.items (prefix_sign op)) }
{
    match op {
        Op::Negate => plan.push(Item::Sign(Op::Minus))?,
        Op::Not => plan.push(Item::Sign(Op::Not))?,
        _ => {
            plan.push(Item::Blank)?;
            plan.push(Item::Sign(op))?;
        }
    }
    Ok(())
}

fn put_choice(plan: &mut Vec<Item<'_>>) -> Result<(), AllocError>
    ensures { OnOk result (Puts 3 plan.old.items plan.new.items pure.choice_pieces) }
{
    plan.extend_from_slice(&[
        Item::Part(2, false),
        Item::Blank,
        Item::Fixed(Fixed::Else),
        Item::Blank,
        Item::Part(1, false),
        Item::Blank,
        Item::Fixed(Fixed::Then),
        Item::Blank,
        Item::Part(0, false),
        Item::Blank,
        Item::Fixed(Fixed::If),
    ])?;
    Ok(())
}

fn put_listed(n: usize, plan: &mut Vec<Item<'_>>) -> Result<(), AllocError>
    ensures { OnOk result (Puts n plan.old.items plan.new.items listed) }
{
    let mut i = n;
    while i > 0 {
        put_comma_if(i < n, plan)?;
        i -= 1;
        plan.push(Item::Part(i, false))?;
    }
    Ok(())
}

fn put_infix_sign(op: Op, plan: &mut Vec<Item<'_>>) -> Result<(), AllocError>
    ensures { OnOk result (Adds plan.old.items plan.new.items (infix_sign op)) }
{
    match op {
        Op::Range => plan.push(Item::Sign(Op::Range))?,
        _ => put_spaced(Item::Sign(op), plan)?,
    }
    Ok(())
}

fn put_operator(op: Op, n: usize, plan: &mut Vec<Item<'_>>) -> Result<(), AllocError>
    requires { n ≡ operands (is_prefix op) }
    ensures { OnOk result (Puts n plan.old.items plan.new.items (infix_pieces op)) }
{
    if n == 1 {
        plan.push(Item::Part(0, true))?;
        put_prefix_sign(op, plan)?;
    } else {
        plan.push(Item::Part(1, true))?;
        put_infix_sign(op, plan)?;
        plan.push(Item::Part(0, true))?;
    }
    Ok(())
}

// The sign is that between a field and what it has.
fn put_fields<'a>(
    names: &'a [Name],
    sign: Fixed,
    plan: &mut Vec<Item<'a>>,
) -> Result<(), AllocError>
    ensures { OnOk result (Puts (length names.now) plan.old.items plan.new.items (field_pieces (spaced (fixed_token sign)) names.now)) }
{
    let mut i = names.len();
    while i > 0 {
        put_comma_if(i < names.len(), plan)?;
        i -= 1;
        plan.extend_from_slice(&[
            Item::Part(i, false),
            Item::Blank,
            Item::Fixed(sign),
            Item::Blank,
            Item::Field(&names[i]),
        ])?;
    }
    Ok(())
}

fn put_names<'a>(names: &'a [PlacedName], plan: &mut Vec<Item<'a>>) -> Result<(), AllocError>
    ensures { OnOk result (Adds plan.old.items plan.new.items (name_pieces names.now)) }
{
    let mut i = names.len();
    while i > 0 {
        put_comma_if(i < names.len(), plan)?;
        i -= 1;
        let bound = &names[i];
        plan.push(Item::Word(&bound.name))?;
    }
    Ok(())
}

fn put_binds<'a>(groups: &'a [Vec<PlacedName>], plan: &mut Vec<Item<'a>>) -> Result<(), AllocError>
    ensures { OnOk result (Puts (suc (length groups.now)) plan.old.items plan.new.items (bind_pieces (groups_of groups.now))) }
{
    let mut i = groups.len();
    while i > 0 {
        put_comma_if(i < groups.len(), plan)?;
        i -= 1;
        plan.extend_from_slice(&[
            Item::Part(i, true),
            Item::Blank,
            Item::Sign(Op::In),
            Item::Blank,
        ])?;
        put_names(&groups[i], plan)?;
    }
    Ok(())
}

fn put_quantifier<'a>(
    key: Fixed,
    groups: &'a [Vec<PlacedName>],
    plan: &mut Vec<Item<'a>>,
) -> Result<(), AllocError>
    ensures { OnOk result (Puts (suc (length groups.now)) plan.old.items plan.new.items (quantifier_pieces (fixed_token key) (groups_of groups.now))) }
{
    plan.extend_from_slice(&[
        Item::Part(groups.len(), false),
        Item::Blank,
        Item::Fixed(Fixed::Colon),
        Item::Blank,
    ])?;
    put_binds(groups, plan)?;
    plan.extend_from_slice(&[Item::Blank, Item::Fixed(key)])?;
    Ok(())
}

fn put_binding<'a>(
    binder: Binder,
    groups: &'a [Vec<PlacedName>],
    plan: &mut Vec<Item<'a>>,
) -> Result<(), AllocError>
    ensures { OnOk result (Puts (suc (length groups.now)) plan.old.items plan.new.items (binding_pieces binder (groups_of groups.now))) }
{
    let body = groups.len();
    match binder {
        Binder::ForAll => put_quantifier(Fixed::ForAll, groups, plan)?,
        Binder::Exists => put_quantifier(Fixed::Exists, groups, plan)?,
        Binder::Filter => {
            plan.extend_from_slice(&[
                Item::Fixed(Fixed::CloseBrace),
                Item::Part(body, false),
                Item::Blank,
                Item::Fixed(Fixed::Colon),
                Item::Blank,
            ])?;
            put_binds(groups, plan)?;
            plan.push(Item::Fixed(Fixed::OpenBrace))?;
        }
        Binder::Image => {
            plan.push(Item::Fixed(Fixed::CloseBrace))?;
            put_binds(groups, plan)?;
            plan.extend_from_slice(&[
                Item::Blank,
                Item::Fixed(Fixed::Colon),
                Item::Blank,
                Item::Part(body, true),
                Item::Fixed(Fixed::OpenBrace),
            ])?;
        }
        Binder::Function => {
            plan.extend_from_slice(&[
                Item::Fixed(Fixed::CloseSquare),
                Item::Part(body, false),
                Item::Blank,
                Item::Fixed(Fixed::Maps),
                Item::Blank,
            ])?;
            put_binds(groups, plan)?;
            plan.push(Item::Fixed(Fixed::OpenSquare))?;
        }
    }
    Ok(())
}

fn put_blank_if(more: bool, plan: &mut Vec<Item<'_>>) -> Result<(), AllocError>
    ensures { OnOk result (plan.new.items ≡ plan.old.items ++ blank_items more) }
{
    if more {
        plan.push(Item::Blank)?;
    }
    Ok(())
}

fn put_definitions<'a>(names: &'a [PlacedName], plan: &mut Vec<Item<'a>>) -> Result<(), AllocError>
    ensures { OnOk result (Puts (suc (length names.now)) plan.old.items plan.new.items (definition_pieces names.now)) }
{
    let mut i = names.len();
    while i > 0 {
        put_blank_if(i < names.len(), plan)?;
        i -= 1;
        let bound = &names[i];
        plan.extend_from_slice(&[
            Item::Part(i, false),
            Item::Blank,
            Item::Fixed(Fixed::Defines),
            Item::Blank,
            Item::Word(&bound.name),
        ])?;
    }
    Ok(())
}

fn put_local<'a>(names: &'a [PlacedName], plan: &mut Vec<Item<'a>>) -> Result<(), AllocError>
    ensures { OnOk result (Puts (suc (length names.now)) plan.old.items plan.new.items (local_pieces names.now)) }
{
    plan.extend_from_slice(&[
        Item::Part(names.len(), false),
        Item::Blank,
        Item::Fixed(Fixed::In),
        Item::Blank,
    ])?;
    put_definitions(names, plan)?;
    plan.extend_from_slice(&[Item::Blank, Item::Fixed(Fixed::Let)])?;
    Ok(())
}

// The steps of a path; the parts from `next` on are used already. Gives the first part that is used then.
fn put_path<'a>(
    path: &'a [Step],
    next: usize,
    plan: &mut Vec<Item<'a>>,
) -> Result<usize, AllocError>
    requires { subscripts (steps_of path.now) ≤ next }
    ensures { IfOk result (λ first. PutsPath (steps_of path.now) first next plan.old.items plan.new.items) }
{
    let mut first = next;
    let mut i = path.len();
    while i > 0 {
        i -= 1;
        let step = &path[i];
        match step {
            Step::Index => {
                first -= 1;
                plan.push(Item::Fixed(Fixed::CloseSquare))?;
                plan.push(Item::Part(first, false))?;
                plan.push(Item::Fixed(Fixed::OpenSquare))?;
            }
            Step::Field(name) => {
                plan.push(Item::Field(name))?;
                plan.push(Item::Fixed(Fixed::Dot))?;
            }
        }
    }
    Ok(first)
}

fn put_slots<'a>(slots: &'a [Slot], n: usize, plan: &mut Vec<Item<'a>>) -> Result<(), AllocError>
    requires { n ≡ suc (settings (slots_of slots.now)) }
    ensures { OnOk result (Puts n plan.old.items plan.new.items (slots_behind (slots_of slots.now))) }
{
    let mut next = n;
    let mut i = slots.len();
    while i > 0 {
        put_comma_if(i < slots.len(), plan)?;
        i -= 1;
        next -= 1;
        plan.push(Item::Part(next, false))?;
        put_spaced(Item::Sign(Op::Equal), plan)?;
        let slot = &slots[i];
        next = put_path(&slot.path, next, plan)?;
        plan.push(Item::Fixed(Fixed::Bang))?;
    }
    Ok(())
}

fn put_other(i: usize, plan: &mut Vec<Item<'_>>) -> Result<(), AllocError>
    ensures { OnOk result (Puts (suc i) plan.old.items plan.new.items (λ xs ps. arm_pieces true (drop i xs) ps)) }
{
    plan.extend_from_slice(&[
        Item::Part(i, true),
        Item::Blank,
        Item::Fixed(Fixed::Arrow),
        Item::Blank,
        Item::Fixed(Fixed::Other),
    ])?;
    Ok(())
}

// The arms before those from `from` on, of n parts.
fn put_pairs(other: bool, from: usize, n: usize, plan: &mut Vec<Item<'_>>) -> Result<(), AllocError>
    requires within { from ≤ n }
    requires paired { IsTwice from }
    ensures { OnOk result (PutsArms other from n plan.old.items plan.new.items) }
{
    let mut i = from;
    while i > 1 {
        put_box_if(i < n, plan)?;
        i -= 2;
        plan.push(Item::Part(i + 1, true))?;
        put_spaced(Item::Fixed(Fixed::Arrow), plan)?;
        plan.push(Item::Part(i, true))?;
    }
    Ok(())
}

fn put_arms(other: bool, n: usize, plan: &mut Vec<Item<'_>>) -> Result<(), AllocError>
    requires { CaseShaped other n }
    ensures { OnOk result (Puts n plan.old.items plan.new.items (arm_pieces other)) }
{
    if other {
        put_other(n - 1, plan)?;
        put_pairs(other, n - 1, n, plan)?;
    } else {
        put_pairs(other, n, n, plan)?;
    }
    Ok(())
}

// The sign is that between a field and what it has.
fn put_record<'a>(
    names: &'a [Name],
    sign: Fixed,
    plan: &mut Vec<Item<'a>>,
) -> Result<(), AllocError>
    ensures { OnOk result (Puts (length names.now) plan.old.items plan.new.items (record_pieces (fixed_token sign) names.now)) }
{
    plan.push(Item::Fixed(Fixed::CloseSquare))?;
    put_fields(names, sign, plan)?;
    plan.push(Item::Fixed(Fixed::OpenSquare))?;
    Ok(())
}

fn put_functions(plan: &mut Vec<Item<'_>>) -> Result<(), AllocError>
    ensures { OnOk result (Puts 2 plan.old.items plan.new.items (strict_pieces tree.functions)) }
{
    plan.extend_from_slice(&[
        Item::Fixed(Fixed::CloseSquare),
        Item::Part(1, false),
        Item::Blank,
        Item::Fixed(Fixed::Arrow),
        Item::Blank,
        Item::Part(0, false),
        Item::Fixed(Fixed::OpenSquare),
    ])?;
    Ok(())
}

fn put_apply(plan: &mut Vec<Item<'_>>) -> Result<(), AllocError>
    ensures { OnOk result (Puts 2 plan.old.items plan.new.items (strict_pieces tree.apply)) }
{
    plan.extend_from_slice(&[
        Item::Fixed(Fixed::CloseSquare),
        Item::Part(1, false),
        Item::Fixed(Fixed::OpenSquare),
        Item::Part(0, true),
    ])?;
    Ok(())
}

fn put_except<'a>(slots: &'a [Slot], n: usize, plan: &mut Vec<Item<'a>>) -> Result<(), AllocError>
    requires { n ≡ suc (settings (slots_of slots.now)) }
    ensures { OnOk result (Puts n plan.old.items plan.new.items (strict_pieces (tree.except (slots_of slots.now)))) }
{
    plan.push(Item::Fixed(Fixed::CloseSquare))?;
    put_slots(slots, n, plan)?;
    plan.extend_from_slice(&[
        Item::Blank,
        Item::Fixed(Fixed::Except),
        Item::Blank,
        Item::Part(0, true),
        Item::Fixed(Fixed::OpenSquare),
    ])?;
    Ok(())
}

fn put_strict<'a>(strict: &'a Strict, n: usize, plan: &mut Vec<Item<'a>>) -> Result<(), AllocError>
    requires { StrictShaped (strict_of strict.now) n }
    ensures { OnOk result (Puts n plan.old.items plan.new.items (strict_pieces (strict_of strict.now))) }
{
    match strict {
        Strict::Operator(op) => put_operator(*op, n, plan)?,
        Strict::SetOf => {
            plan.push(Item::Fixed(Fixed::CloseBrace))?;
            put_listed(n, plan)?;
            plan.push(Item::Fixed(Fixed::OpenBrace))?;
        }
        Strict::Tuple => {
            plan.push(Item::Fixed(Fixed::CloseTuple))?;
            put_listed(n, plan)?;
            plan.push(Item::Fixed(Fixed::OpenTuple))?;
        }
        Strict::Fields(names) => put_record(names.as_slice(), Fixed::Maps, plan)?,
        Strict::Records(names) => put_record(names.as_slice(), Fixed::Colon, plan)?,
        Strict::Functions => put_functions(plan)?,
        Strict::Apply => put_apply(plan)?,
        Strict::Select(name) => {
            plan.extend_from_slice(&[
                Item::Field(name),
                Item::Fixed(Fixed::Dot),
                Item::Part(0, true),
            ])?;
        }
        Strict::Except(slots) => put_except(slots, n, plan)?,
    }
    Ok(())
}

fn put_form<'a>(form: &'a Form, n: usize, plan: &mut Vec<Item<'a>>) -> Result<(), AllocError>
    requires { Shaped (form_of form.now) n }
    ensures { OnOk result (Puts n plan.old.items plan.new.items (form_pieces (form_of form.now))) }
{
    match form {
        Form::Number(n) => plan.push(Item::Number(n))?,
        Form::String(text) => plan.push(Item::Quote(text))?,
        Form::Truth(sense) => plan.push(Item::Fixed(truth(*sense)))?,
        Form::Booleans => plan.push(Item::Fixed(Fixed::Booleans))?,
        Form::Strings => plan.push(Item::Fixed(Fixed::Strings))?,
        Form::Name(name) => plan.push(Item::Word(name))?,
        Form::Next(name) => {
            plan.extend_from_slice(&[Item::Fixed(Fixed::Prime), Item::Word(name)])?;
        }
        Form::Strict(strict) => put_strict(strict, n, plan)?,
        Form::Call(name) => {
            plan.push(Item::Fixed(Fixed::CloseBracket))?;
            put_listed(n, plan)?;
            plan.extend_from_slice(&[Item::Fixed(Fixed::OpenBracket), Item::Word(name)])?;
        }
        Form::Conjunction => put_operator(Op::And, n, plan)?,
        Form::Disjunction => put_operator(Op::Or, n, plan)?,
        Form::Implication => put_operator(Op::Implies, n, plan)?,
        Form::Member(true) => put_operator(Op::In, n, plan)?,
        Form::Member(false) => put_operator(Op::NotIn, n, plan)?,
        Form::IfThenElse => put_choice(plan)?,
        Form::Cases(other) => {
            put_arms(*other, n, plan)?;
            plan.extend_from_slice(&[Item::Blank, Item::Fixed(Fixed::Case)])?;
        }
        Form::Binding(binder, groups) => put_binding(*binder, groups, plan)?,
        Form::Local(names) => put_local(names, plan)?,
    }
    Ok(())
}

fn put_part<'a>(
    form: &'a Form,
    operand: bool,
    n: usize,
    plan: &mut Vec<Item<'a>>,
) -> Result<(), AllocError>
    requires { Shaped (form_of form.now) n }
    ensures { OnOk result (Puts n plan.old.items plan.new.items (λ xs. pure.form_part (form_of form.now) xs operand)) }
{
    if operand {
        if is_bracketed(form) {
            plan.push(Item::Fixed(Fixed::CloseBracket))?;
            put_form(form, n, plan)?;
            plan.push(Item::Fixed(Fixed::OpenBracket))?;
        } else {
            put_form(form, n, plan)?;
        }
    } else {
        put_form(form, n, plan)?;
    }
    Ok(())
}

// ---- bytes

fn write_character(b: u8, into: &mut Text) -> Result<(), AllocError>
    ensures { OnOk result (into.new ≡ into.old ++ escaped b) }
{
    match b {
        b'"' => into.extend(b"\\\""),
        b'\\' => into.extend(b"\\\\"),
        b'\t' => into.extend(b"\\t"),
        b'\n' => into.extend(b"\\n"),
        12 => into.extend(b"\\f"),
        b'\r' => into.extend(b"\\r"),
        _ => into.push(b),
    }
}

fn write_quote(text: &Text, into: &mut Text) -> Result<(), AllocError>
    ensures { OnOk result (into.new ≡ into.old ++ token_text (tk.string text.now)) }
{
    into.push(b'"')?;
    for b in text.bytes() {
        write_character(*b, into)?;
    }
    into.push(b'"')
}

fn write_number(alloc: Global, n: u128, into: &mut Text) -> Result<(), AllocError>
    ensures { OnOk result (into.new ≡ into.old ++ decimal n) }
{
    let digits = format!(in alloc; "{n}")?;
    into.extend(digits.as_bytes())
}

// Appends an item that is no part.
fn write_item(alloc: Global, item: Item<'_>, into: &mut Text) -> Result<(), AllocError>
    ensures { OnOk result (Writes into.old into.new (item_pieces [] item.entry)) }
{
    match item {
        Item::Blank => into.push(b' ')?,
        Item::Fixed(f) => into.extend(fixed_bytes(f))?,
        Item::Sign(op) => into.extend(sign_bytes(op))?,
        Item::Word(name) => into.extend(name.bytes())?,
        Item::Field(name) => into.extend(name.bytes())?,
        Item::Number(n) => write_number(alloc, *n, into)?,
        Item::Quote(text) => write_quote(text, into)?,
        Item::Part(_, _) => {}
    }
    Ok(())
}

// ---- what is ahead

// The item that a form without parts is, where it is one of a few.
fn alone(form: &Form) -> Option<Item<'_>>
    ensures { Stands (form_of form.now) result }
{
    match form {
        Form::Number(n) => Some(Item::Number(n)),
        Form::String(text) => Some(Item::Quote(text)),
        Form::Name(name) => Some(Item::Word(name)),
        _ => None,
    }
}

// Puts the items of a plan ahead, for the parts of this expression. A part past the last one is nothing.
fn put_ahead<'a>(
    of: &Seen<'a>,
    plan: &[Item<'a>],
    ahead: &mut Vec<Ahead<'a>>,
) -> Result<(), AllocError>
    ensures { OnOk result (PutsAhead of.now plan.now ahead.old.items ahead.new.items) }
{
    let count = of.len();
    for item in plan {
        match *item {
            Item::Part(i, operand) if i < count => {
                ahead.push(Ahead::Part(of.part(i), operand))?;
            }
            Item::Part(_, _) => {}
            plain => ahead.push(Ahead::Item(plain))?,
        }
    }
    Ok(())
}

// Puts what an expression shows ahead. The plan is made anew, in memory that is there from the last one.
fn begin<'a>(
    of: &Seen<'a>,
    operand: bool,
    plan: &mut Vec<Item<'a>>,
    ahead: &mut Vec<Ahead<'a>>,
) -> Result<(), AllocError>
    ensures { OnOk result (Begins of.now operand ahead.old.items ahead.new.items) }
{
    plan.clear();
    of.shaped();
    put_part(of.form(), operand, of.len(), plan)?;
    put_ahead(of, plan, ahead)?;
    Ok(())
}

// Writes what is next, or puts what it shows ahead.
fn write_next<'a>(
    alloc: Global,
    next: Ahead<'a>,
    plan: &mut Vec<Item<'a>>,
    ahead: &mut Vec<Ahead<'a>>,
    into: &mut Text,
) -> Result<(), AllocError>
    ensures { OnOk result (Goes next.entry ahead.old.items ahead.new.items into.old into.new) }
{
    match next {
        Ahead::Item(item) => write_item(alloc, item, into)?,
        Ahead::Part(of, operand) => match alone(of.form()) {
            Some(item) => write_item(alloc, item, into)?,
            None => begin(&of, operand, plan, ahead)?,
        },
    }
    Ok(())
}

// Appends the text of an expression.
fn write_part(alloc: Global, e: Seen<'_>, operand: bool, into: &mut Text) -> Result<(), AllocError>
    ensures { OnOk result (Writes into.old into.new (part e.entry operand)) }
{
    let mut plan = Vec::new(alloc);
    let mut ahead = Vec::new(alloc);
    write_next(alloc, Ahead::Part(e, operand), &mut plan, &mut ahead, into)?;
    while let Some(next) = ahead.pop() {
        write_next(alloc, next, &mut plan, &mut ahead, into)?;
    }
    Ok(())
}

/// Appends the text of an expression; without memory for it the text may have some of it.
///
/// # Errors
///
/// Only for want of memory.
pub fn append_expr(alloc: Global, pool: &Pool, e: NodeId, into: &mut Text) -> Result<(), AllocError>
    requires { e < length pool.now }
    ensures { OnOk result (into.new ≡ into.old ++ written (at pool.now e)) }
{
    write_part(alloc, Seen::new(pool, e), false, into)?;
    Ok(())
}

/// Appends the text of an expression that is an operand, in brackets where it needs them; without memory for it the text may
/// have some of it.
///
/// # Errors
///
/// Only for want of memory.
pub fn append_operand(
    alloc: Global,
    pool: &Pool,
    e: NodeId,
    into: &mut Text,
) -> Result<(), AllocError>
    requires { e < length pool.now }
    ensures { OnOk result (into.new ≡ into.old ++ text_of (as_operand (part (at pool.now e)) [])) }
{
    write_part(alloc, Seen::new(pool, e), true, into)?;
    Ok(())
}

/// Appends the text of an expression.
///
/// # Errors
///
/// Only for want of memory; the text is then as before.
pub fn write_expr(alloc: Global, pool: &Pool, e: NodeId, into: &mut Text) -> Result<(), AllocError>
    requires { e < length pool.now }
    ensures ok { OnOk result (into.new ≡ into.old ++ written (at pool.now e)) }
    ensures err { OnErr result (into.new ≡ into.old) }
{
    let mut made = Text::new(Vec::new(alloc));
    append_expr(alloc, pool, e, &mut made)?;
    into.extend(made.bytes())
}

/// Appends the text of an expression that is an operand, in brackets where it needs them.
///
/// # Errors
///
/// Only for want of memory; the text is then as before.
pub fn write_operand(
    alloc: Global,
    pool: &Pool,
    e: NodeId,
    into: &mut Text,
) -> Result<(), AllocError>
    requires { e < length pool.now }
    ensures ok { OnOk result (into.new ≡ into.old ++ text_of (as_operand (part (at pool.now e)) [])) }
    ensures err { OnErr result (into.new ≡ into.old) }
{
    let mut made = Text::new(Vec::new(alloc));
    append_operand(alloc, pool, e, &mut made)?;
    into.extend(made.bytes())
}
