//! A program as a tree: what the source says, with the position of each part.

use crate::name::Name;
use cal_terms::WordKind;
pub use cal_terms::{Gives, Ty};
use sqlite_items::{Boxed, Items};

/// A whole program: its shared declarations, its functions and the statements of main, each in the text's order.
#[derive(Debug, Drop)]
pub struct Program {
    pub shared: Items<Shared>,
    pub functions: Items<Function>,
    pub main: Items<Stmt>,
}

/// A shared declaration. No size means one word.
#[derive(Debug, Drop)]
pub struct Shared {
    pub name: Name,
    pub kind: WordKind,
    pub size: Option<ArraySize>,
    pub values: Items<Valued>,
    /// Whether `= {` stands there.
    pub listed: bool,
}

/// The size of an array, as it is written.
#[derive(Clone, Copy, PartialEq, Eq, Debug)]
pub struct ArraySize {
    /// The byte, from 0, of its number.
    pub at: u32,
    pub number: i64,
}

/// An initial value.
#[derive(Clone, Copy, PartialEq, Eq, Debug)]
pub struct Valued {
    /// The byte, from 0, of its sign, or of its number where it has no sign.
    pub at: u32,
    pub number: i64,
}

/// A function of the program.
#[derive(Debug, Drop)]
pub struct Function {
    pub name: Name,
    pub gives: Gives,
    pub params: Items<Param>,
    pub body: Items<Stmt>,
}

/// A parameter of a function.
#[derive(Debug, Drop)]
pub struct Param {
    pub name: Name,
    pub ty: Ty,
}

/// A statement.
#[cycle(stmt)]
#[derive(Debug, Drop)]
pub struct Stmt {
    /// The byte, from 0, of its first token.
    pub at: u32,
    pub form: Form,
}

/// What a statement does.
#[cycle(stmt)]
#[derive(Debug, Drop)]
pub enum Form {
    Declare {
        ty: Ty,
        name: Name,
        value: Expr,
    },
    Set {
        place: Place,
        value: Expr,
    },
    AddTo {
        place: Place,
        value: Expr,
    },
    If {
        arms: Items<Arm>,
        last: Option<Items<Stmt>>,
    },
    While {
        test: Expr,
        body: Items<Stmt>,
    },
    For {
        first: Boxed<Stmt>,
        test: Expr,
        next: Boxed<Stmt>,
        body: Items<Stmt>,
    },
    Break,
    Continue,
    Return(Option<Expr>),
    CallOf(Call),
    Assert(Expr),
    Block(Items<Stmt>),
    Print(Items<Item>),
    Par(Items<RoutineBlock>),
}

/// A test of an `if`, and the block behind it.
#[cycle(stmt)]
#[derive(Debug, Drop)]
pub struct Arm {
    pub test: Expr,
    pub body: Items<Stmt>,
}

/// An item of a `print`.
#[derive(Debug, Drop)]
pub enum Item {
    Text(Name),
    Value(Expr),
}

/// A routine block of a step: how many routines it has, the names of its two parameters, and its body.
#[cycle(stmt)]
#[derive(Debug, Drop)]
pub struct RoutineBlock {
    /// The byte, from 0, of its first token.
    pub at: u32,
    pub width: Expr,
    pub width_name: Name,
    pub id_name: Name,
    pub body: Items<Stmt>,
}

/// A shared word, an element of a shared array, or a local.
#[cycle(expr)]
#[derive(Debug, Drop)]
pub struct Place {
    pub name: Name,
    pub index: Option<Boxed<Expr>>,
}

/// A call of a function.
#[cycle(expr)]
#[derive(Debug, Drop)]
pub struct Call {
    pub name: Name,
    pub args: Items<Expr>,
}

/// An expression.
#[cycle(expr)]
#[derive(Debug, Drop)]
pub struct Expr {
    /// The byte, from 0, of its first token.
    pub at: u32,
    pub node: Node,
}

/// What an expression is.
#[cycle(expr)]
#[derive(Debug, Drop)]
pub enum Node {
    Number(i64),
    Truth(bool),
    Read(Place),
    CallOf(Call),
    Unary(UnaryOp, Boxed<Expr>),
    Binary(BinaryOp, Boxed<Expr>, Boxed<Expr>),
    Paren(Boxed<Expr>),
}

/// An operator before its operand.
#[derive(Clone, Copy, PartialEq, Eq, Debug)]
pub enum UnaryOp {
    Neg,
    Not,
}

/// An operator between two operands.
#[derive(Clone, Copy, PartialEq, Eq, Debug)]
pub enum BinaryOp {
    Add,
    Sub,
    Mul,
    Div,
    Rem,
    Eq,
    Ne,
    Lt,
    Le,
    Gt,
    Ge,
    And,
    Or,
}
