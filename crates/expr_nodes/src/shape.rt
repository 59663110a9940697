//! What reading goes by of an expression that was read: how it is spelled outermost and at its end, and what it opens.

ghost use Rattle.std.specs.Prelude.{◌≡◌, ◌<◌, ◌+◌, ◌^◌, max, IsTrue, Bool, false};
ghost use Rattle.tla_tree.specs.Rank as pure;
ghost use Rattle.tla_tree.specs.Rank.{same_op as same_op_of};
ghost use Rattle.tla_tree.specs.Spelling.{Phrase};
ghost use Rattle.tla_tree.specs.Spelling as spelling;
ghost use Rattle.tla_tree.specs.Nesting as nesting;
ghost use Rattle.tla_tree.specs.Reader as reader;
ghost use Rattle.expr_nodes.specs.ShapeOf.{is_above as is_above_of, is_applied as is_applied_of, is_primary as is_primary_of, is_open as is_open_of, is_behind as is_behind_of, is_left as is_left_of, takes as takes_of, right_of as right_of_of, shape_of, infix_shape as infix_shape_of, prefix_shape as prefix_shape_of, open_shape as open_shape_of, list_shape as list_shape_of, apply_shape as apply_shape_of, select_shape as select_shape_of, links_before as links_before_of, links_after as links_after_of, field_nesting as field_nesting_of, primary_shape as primary_shape_of, context_seen, stands_left as stands_left_of, stands_right as stands_right_of, stands_at_head as stands_at_head_of, continues as continues_of, stands_under as stands_under_of};

use tla_token::Place;
use tla_tree::{Op, rank};

/// What an expression is to the operators beside it.
#[derive(Clone, Copy)]
pub enum Head {
    /// Above all operators.
    Primary,
    /// An infix or prefix form.
    Applied(Op),
    /// It takes all that can follow it.
    Open,
}

/// Which `[]` after an expression belong to a `CASE` in it.
#[derive(Clone, Copy)]
pub enum Boxes {
    Never,
    Always,
    /// Those to the right of a column.
    RightOf(u32),
}

/// A list by columns: its operator, and the column of its bullets.
#[derive(Clone, Copy)]
pub struct Bullet {
    pub op: Op,
    pub col: u32,
}

/// What reading goes by of an expression that was read.
#[derive(Clone, Copy)]
pub struct Shape {
    pub head: Head,
    /// The place of its first token.
    pub start: Place,
    /// A primary, or a prefix operator with a short form.
    pub short: bool,
    /// Whether it ends with an open form.
    pub ends_open: bool,
    /// The list that it is or ends with.
    pub end_list: Option<Bullet>,
    pub boxes: Boxes,
    /// How many infix operators it groups from the left.
    pub chain: u32,
    /// How many fields and applications follow one another at its end, where these count.
    pub links: u32,
    /// The most forms that are open at a token of it.
    pub nesting: u32,
}

/// Where an expression is: free, to the right of an operator, or under a prefix operator.
#[derive(Clone, Copy)]
pub enum Context {
    Free,
    RightOf(Op),
    Under(Op),
}

// ---- operators

/// Whether the two are the same operator.
pub fn same_op(o: Op, q: Op) -> bool
    ensures { result ≡ same_op_of o q }
{
    op_number(o) == op_number(q)
}

// A number for each operator.
fn op_number(op: Op) -> u8
    ensures { result ≡ pure.number_of op }
{
    match op {
        Op::Implies => 0,
        Op::Equivalent => 1,
        Op::And => 2,
        Op::Or => 3,
        Op::Not => 4,
        Op::Equal => 5,
        Op::NotEqual => 6,
        Op::Less => 7,
        Op::Greater => 8,
        Op::AtMost => 9,
        Op::AtLeast => 10,
        Op::In => 11,
        Op::NotIn => 12,
        Op::SubsetEq => 13,
        Op::Override => 14,
        Op::MapsTo => 15,
        Op::Cup => 16,
        Op::Cap => 17,
        Op::Without => 18,
        Op::Subset => 19,
        Op::Union => 20,
        Op::Range => 21,
        Op::Domain => 22,
        Op::Plus => 23,
        Op::Modulo => 24,
        Op::Minus => 25,
        Op::Negate => 26,
        Op::Times => 27,
        Op::Concat => 28,
        Op::Divide => 29,
    }
}

/// Whether it stands before its one operand.
pub fn is_prefix(op: Op) -> bool
    ensures { result ≡ pure.is_prefix op }
{
    matches!(
        op,
        Op::Not | Op::Subset | Op::Union | Op::Domain | Op::Negate
    )
}

/// Whether `a OP b OP c` is `(a OP b) OP c`.
pub fn is_associative(op: Op) -> bool
    ensures { result ≡ pure.is_associative op }
{
    match op {
        Op::And | Op::Or | Op::Override | Op::Cup | Op::Cap => true,
        Op::Plus | Op::Minus | Op::Times | Op::Concat => true,
        _ => false,
    }
}

/// Whether its sign may be the bullet of a list.
pub fn is_bullet(op: Op) -> bool
    ensures { result ≡ pure.is_bullet op }
{
    matches!(op, Op::And | Op::Or)
}

/// The prefix operator of a sign.
pub fn prefix_by(op: Op) -> Option<Op>
    ensures { result ≡ reader.prefix_by op }
{
    match op {
        Op::Minus => Some(Op::Negate),
        Op::Not => Some(Op::Not),
        Op::Subset => Some(Op::Subset),
        Op::Union => Some(Op::Union),
        Op::Domain => Some(Op::Domain),
        _ => None,
    }
}

/// The rank that the operators of a context are above.
pub fn bound(context: Context) -> u8
    ensures { result ≡ reader.bound (context_seen context) }
{
    match context {
        Context::Free => 0,
        Context::RightOf(o) => rank(o).1,
        Context::Under(o) => rank(o).1,
    }
}

/// Whether a prefix operator may have more than a short form under it.
pub fn is_free(context: Context, q: Op) -> bool
    ensures { result ≡ reader.is_free (context_seen context) q }
{
    match context {
        Context::Free => true,
        Context::RightOf(o) => rank(o).1 < rank(q).0,
        Context::Under(o) => rank(o).1 < rank(q).0 || same_op(o, q),
    }
}

// ---- heads and ends

fn is_above(op: Op, head: Head) -> bool
    ensures { result ≡ is_above_of op head }
{
    match head {
        Head::Primary => true,
        Head::Applied(q) => rank(op).1 < rank(q).0,
        Head::Open => false,
    }
}

fn is_applied(op: Op, head: Head) -> bool
    ensures { result ≡ is_applied_of op head }
{
    match head {
        Head::Applied(q) => same_op(op, q),
        _ => false,
    }
}

fn is_primary(head: Head) -> bool
    ensures { result ≡ is_primary_of head }
{
    matches!(head, Head::Primary)
}

fn is_open(head: Head) -> bool
    ensures { result ≡ is_open_of head }
{
    matches!(head, Head::Open)
}

// After a list an operator is at its column or left of it, and is no further bullet.
fn is_behind(list: Option<Bullet>, op: Op, place: Place) -> bool
    ensures { result ≡ is_behind_of list op place }
{
    match list {
        None => true,
        Some(l) => !(l.col < place.col) && !(same_op(l.op, op) && l.col == place.col),
    }
}

// Whether a `[]` in this column belongs to a `CASE` in it.
fn takes(col: u32, boxes: Boxes) -> bool
    ensures { result ≡ takes_of col boxes }
{
    match boxes {
        Boxes::Never => false,
        Boxes::Always => true,
        Boxes::RightOf(c) => c < col,
    }
}

// Those of them that are to the right of a column.
fn right_of(col: u32, boxes: Boxes) -> Boxes
    ensures { result ≡ right_of_of col boxes }
{
    match boxes {
        Boxes::Never => Boxes::Never,
        Boxes::Always => Boxes::RightOf(col),
        Boxes::RightOf(c) => Boxes::RightOf(larger(col, c)),
    }
}

/// The larger one of two numbers.
pub fn larger(m: u32, n: u32) -> u32
    ensures { result ≡ max m n }
{
    if m < n { n } else { m }
}

// ---- where an expression may stand

/// Whether it may stand to the left of an operator at a place.
pub fn can_be_left(shape: Shape, place: Place, op: Op) -> bool
    ensures { (w : Bool) (a : Phrase) → shape_of w a ≡ shape → result ≡ spelling.can_be_left a place op }
{
    stands_left(shape, place, op)
}

pub(crate) fn stands_left(shape: Shape, place: Place, op: Op) -> bool
    ensures { result ≡ stands_left_of shape place op }
{
    (is_above(op, shape.head) || (is_associative(op) && is_applied(op, shape.head)))
        && (!shape.ends_open && is_behind(shape.end_list, op, place))
}

/// Whether it may stand to the right of an operator.
pub fn can_be_right(op: Op, shape: Shape) -> bool
    ensures { (w : Bool) (a : Phrase) → shape_of w a ≡ shape → result ≡ spelling.can_be_right op a }
{
    stands_right(op, shape)
}

fn stands_right(op: Op, shape: Shape) -> bool
    ensures { result ≡ stands_right_of op shape }
{
    is_above(op, shape.head) || (is_open(shape.head) || shape.short)
}

/// Whether `[` or `.` at a place may follow it.
pub fn can_be_head(shape: Shape, place: Place) -> bool
    ensures { (w : Bool) (a : Phrase) → shape_of w a ≡ shape → result ≡ spelling.can_be_head a place }
{
    stands_at_head(shape, place)
}

fn stands_at_head(shape: Shape, place: Place) -> bool
    ensures { result ≡ stands_at_head_of shape place }
{
    is_primary(shape.head) && is_left(shape.end_list, place)
}

/// Whether it is a primary, so that it needs no brackets as an operand.
pub fn stands_alone(shape: Shape) -> bool
    ensures { (w : Bool) (a : Phrase) → shape_of w a ≡ shape → result ≡ spelling.is_primary (spelling.head a) }
{
    is_primary(shape.head)
}

// At the column of the list or left of it.
fn is_left(list: Option<Bullet>, place: Place) -> bool
    ensures { result ≡ is_left_of list place }
{
    match list {
        None => true,
        Some(l) => !(l.col < place.col),
    }
}

/// Whether a `[]` in this column, after it, belongs to a `CASE` in it.
pub fn takes_box(col: u32, shape: Shape) -> bool
    ensures { (w : Bool) (a : Phrase) → shape_of w a ≡ shape → result ≡ spelling.takes_box col a }
{
    takes(col, shape.boxes)
}

/// Whether an operator at a place goes on from it, above a rank.
pub fn goes_on(above: u8, shape: Shape, place: Place, op: Op) -> bool
    ensures phrase { (w : Bool) (a : Phrase) → shape_of w a ≡ shape → result ≡ reader.goes_on above a place op }
    ensures between { IsTrue result → pure.is_prefix op ≡ false }
{
    continues(above, shape, place, op)
}

fn continues(above: u8, shape: Shape, place: Place, op: Op) -> bool
    ensures { result ≡ continues_of above shape place op }
{
    !is_prefix(op) && (above < rank(op).0 && stands_left(shape, place, op))
}

/// Whether it may stand under a prefix operator.
pub fn can_be_under(op: Op, shape: Shape) -> bool
    ensures { (w : Bool) (a : Phrase) → shape_of w a ≡ shape → result ≡ spelling.can_be_under op a }
{
    stands_under(op, shape)
}

fn stands_under(op: Op, shape: Shape) -> bool
    ensures { result ≡ stands_under_of op shape }
{
    is_above(op, shape.head) || (is_applied(op, shape.head) || (is_open(shape.head) || shape.short))
}

// ---- what it opens

/// How many infix operators it groups from the left.
pub fn chain(shape: Shape) -> u32
    ensures { (w : Bool) (a : Phrase) → shape_of w a ≡ shape → result ≡ nesting.chain a }
{
    shape.chain
}

/// How many fields and applications follow one another at its end, where these count.
pub fn links(shape: Shape) -> u32
    ensures { (w : Bool) (a : Phrase) → shape_of w a ≡ shape → result ≡ nesting.before w a }
{
    shape.links
}

/// The most forms that are open at a token of it.
pub fn text_nesting(shape: Shape) -> u32
    ensures { (w : Bool) (a : Phrase) → shape_of w a ≡ shape → result ≡ nesting.nesting_in w a }
{
    shape.nesting
}

/// The place of its first token.
pub fn start(shape: Shape) -> Place
    ensures { (w : Bool) (a : Phrase) → shape_of w a ≡ shape → result ≡ spelling.start a }
{
    shape.start
}

// ---- shapes of forms

/// That of a primary, of which so many forms are open at a token at most.
pub fn primary_shape(start: Place, nesting: u32) -> Shape
    ensures { result ≡ primary_shape_of start nesting }
{
    Shape {
        head: Head::Primary,
        start,
        short: true,
        ends_open: false,
        end_list: None,
        boxes: Boxes::Never,
        chain: 0,
        links: 0,
        nesting,
    }
}

/// How many links are open at one more, besides that one.
pub fn links_before(linked: bool, links: u32) -> u32
    ensures { result ≡ links_before_of linked links }
{
    if linked { links } else { 0 }
}

// How many links are there with one more, where they count.
fn links_after(linked: bool, links: u32) -> u32
    requires { links_before_of linked links + 1 < 2 ^ 32 }
    ensures { result ≡ links_after_of linked links }
{
    if linked { links + 1 } else { 0 }
}

// The most forms that are open at a token of a field of a primary.
fn field_nesting(linked: bool, primary: Shape) -> u32
    requires { links_before_of linked primary.links + 1 < 2 ^ 32 }
    ensures { result ≡ field_nesting_of linked primary }
{
    if linked {
        larger(primary.nesting, primary.links + 1)
    } else {
        primary.nesting
    }
}

/// That of an application of a primary, with so many forms open in its arguments; linked tells whether closed applications
/// and fields count.
pub fn apply_shape(linked: bool, primary: Shape, behind: u32) -> Shape
    requires { links_before_of linked primary.links + 1 + behind < 2 ^ 32 }
    ensures { result ≡ apply_shape_of linked primary behind }
{
    let inside = links_before(linked, primary.links) + 1 + behind;
    Shape {
        links: links_after(linked, primary.links),
        ..primary_shape(primary.start, larger(primary.nesting, inside))
    }
}

/// That of a field of a primary; linked tells whether closed applications and fields count.
pub fn select_shape(linked: bool, primary: Shape) -> Shape
    requires { links_before_of linked primary.links + 1 < 2 ^ 32 }
    ensures { result ≡ select_shape_of linked primary }
{
    Shape {
        links: links_after(linked, primary.links),
        ..primary_shape(primary.start, field_nesting(linked, primary))
    }
}

/// That of an open form, which ends with what takes these `[]`.
pub fn open_shape(start: Place, boxes: Boxes, nesting: u32) -> Shape
    ensures { result ≡ open_shape_of start boxes nesting }
{
    Shape {
        head: Head::Open,
        short: false,
        ends_open: true,
        boxes,
        ..primary_shape(start, nesting)
    }
}

/// That of a list whose first bullet is there, and whose last item takes these `[]`.
pub fn list_shape(op: Op, start: Place, boxes: Boxes, nesting: u32) -> Shape
    ensures { result ≡ list_shape_of op start boxes nesting }
{
    Shape {
        end_list: Some(Bullet { op, col: start.col }),
        boxes: right_of(start.col, boxes),
        ..primary_shape(start, nesting)
    }
}

/// That of an infix operator with its operands.
pub fn infix_shape(left: Shape, op: Op, right: Shape) -> Shape
    requires { left.chain + 1 + right.nesting < 2 ^ 32 }
    ensures { result ≡ infix_shape_of left op right }
{
    Shape {
        head: Head::Applied(op),
        short: false,
        ends_open: right.ends_open,
        end_list: right.end_list,
        boxes: right.boxes,
        chain: left.chain + 1,
        ..primary_shape(
            left.start,
            larger(left.nesting, left.chain + 1 + right.nesting),
        )
    }
}

/// That of a prefix operator at a place with its operand.
pub fn prefix_shape(start: Place, op: Op, under: Shape) -> Shape
    requires { 1 + under.nesting < 2 ^ 32 }
    ensures { result ≡ prefix_shape_of start op under }
{
    Shape {
        head: Head::Applied(op),
        short: under.short,
        ends_open: under.ends_open,
        end_list: under.end_list,
        boxes: under.boxes,
        ..primary_shape(start, 1 + under.nesting)
    }
}
