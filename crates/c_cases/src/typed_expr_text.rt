//! What typed programs are written with: texts, places, types, variables and expressions.
//!
//! The parts of an expression are written from a list of those that are yet to be written, so that no expression is too high for it.
use crate::operators::{assignment_text, binary_text};
use c_syntax::UnaryOp;
use c_tree::{Base, ExprForm, ScalarType, Target, TargetForm, TypedExpr, VarRef};
use std::alloc::Global;
use word_base::NoMemory;

const MOST_PIECES: u32 = 10_000_000;

// What is yet to be written of an expression, each behind a blank but for the end of a node.
#[derive(Clone, Copy, Drop)]
enum Piece<'a> {
    Nothing,
    Close,
    // A letter and a number.
    Number(&'static str, u32),
    Expr(&'a TypedExpr),
    Exprs(&'a [TypedExpr]),
    Target(&'a Target),
}

/// A writer of programs.
#[derive(Drop)]
pub(crate) struct Writer<'b> {
    pub(crate) alloc: Global,
    pub(crate) line: &'b mut String,
    /// The place from which places are counted.
    pub(crate) base: u32,
}

impl<'b> Writer<'b> {
    pub(crate) fn text(&mut self, text: &str) -> Result<(), NoMemory> {
        self.line.push_str(text)?;
        Ok(())
    }

    fn place(&mut self, at: u32) -> Result<(), NoMemory> {
        write!(self.line, "@{}", at.saturating_sub(self.base))?;
        Ok(())
    }

    pub(crate) fn numbered(&mut self, letter: &str, number: u32) -> Result<(), NoMemory> {
        write!(self.line, " {letter}{number}")?;
        Ok(())
    }

    pub(crate) fn variable(&mut self, before: &str, variable: VarRef) -> Result<(), NoMemory> {
        let (letter, number) = lettered(variable);
        write!(self.line, "{before}{letter}{number}")?;
        Ok(())
    }

    pub(crate) fn scalar_type(&mut self, of: ScalarType) -> Result<(), NoMemory> {
        self.line.push_str(base_text(of.base))?;
        for _ in 0..of.stars {
            self.line.push_str("*")?;
        }
        Ok(())
    }

    pub(crate) fn kind(&mut self, kind: Option<ScalarType>) -> Result<(), NoMemory> {
        match kind {
            Some(of) => self.scalar_type(of),
            None => self.text("void"),
        }
    }

    /// An expression.
    pub(crate) fn expr(&mut self, expr: &TypedExpr) -> Result<(), NoMemory> {
        let mut todo = Vec::new(self.alloc);
        self.begin(&mut todo, expr)?;
        // An expression of as many tokens as a source may have has fewer pieces.
        for _ in 0..MOST_PIECES {
            match todo.pop() {
                Some(piece) => self.expr_piece(&mut todo, piece)?,
                None => return Ok(()),
            }
        }
        self.text(" too many pieces")
    }

    fn expr_piece<'a>(
        &mut self,
        todo: &mut Vec<Piece<'a>>,
        piece: Piece<'a>,
    ) -> Result<(), NoMemory> {
        match piece {
            Piece::Nothing | Piece::Exprs([]) => Ok(()),
            Piece::Close => self.text(")"),
            Piece::Number(letter, number) => self.numbered(letter, number),
            Piece::Target(target) => self.target(todo, target),
            Piece::Expr(expr) => self.begin(todo, expr),
            Piece::Exprs([first, rest @ ..]) => {
                todo.push(Piece::Exprs(rest))?;
                self.begin(todo, first)
            }
        }
    }

    // An expression, or its form where it has parts, which are yet to be written then.
    fn begin<'a>(
        &mut self,
        todo: &mut Vec<Piece<'a>>,
        expr: &'a TypedExpr,
    ) -> Result<(), NoMemory> {
        match shape(&expr.form) {
            Some((form, first, second, third)) => {
                self.text(" (")?;
                self.text(form)?;
                self.typed(expr)?;
                follow(todo, first, second, third)
            }
            None => self.leaf(expr),
        }
    }

    fn leaf(&mut self, expr: &TypedExpr) -> Result<(), NoMemory> {
        match &expr.form {
            ExprForm::Const(word) => self.numbered("", u32::from(*word))?,
            ExprForm::Read(variable) => self.variable(" ", *variable)?,
            ExprForm::AddressOf(variable) => self.variable(" &", *variable)?,
            _ => {}
        }
        self.typed(expr)
    }

    // The type and the place of an expression, behind its form.
    fn typed(&mut self, expr: &TypedExpr) -> Result<(), NoMemory> {
        self.line.push_str(":")?;
        self.kind(expr.kind)?;
        self.place(expr.at)
    }

    // What is assigned to.
    fn target<'a>(
        &mut self,
        todo: &mut Vec<Piece<'a>>,
        target: &'a Target,
    ) -> Result<(), NoMemory> {
        match &target.form {
            TargetForm::Named(variable) => self.variable(" ", *variable)?,
            TargetForm::At(pointer) => {
                self.line.push_str(" (*")?;
                todo.push(Piece::Close)?;
                todo.push(Piece::Expr(pointer))?;
            }
        }
        self.place(target.at)
    }
}

// Has these parts of a node written next, and then its end.
fn follow<'a>(
    todo: &mut Vec<Piece<'a>>,
    first: Piece<'a>,
    second: Piece<'a>,
    third: Piece<'a>,
) -> Result<(), NoMemory> {
    todo.push(Piece::Close)?;
    todo.push(third)?;
    todo.push(second)?;
    todo.push(first)?;
    Ok(())
}

// The form of an expression and its parts, where it has any.
fn shape<'a>(form: &'a ExprForm) -> Option<(&'static str, Piece<'a>, Piece<'a>, Piece<'a>)> {
    let none = Piece::Nothing;
    let (form, first, second) = match form {
        ExprForm::Const(_) | ExprForm::Read(_) | ExprForm::AddressOf(_) => return None,
        ExprForm::Load(pointer) => ("*_", Piece::Expr(pointer), none),
        ExprForm::Unary { op, value } => (unary_text(*op), Piece::Expr(value), none),
        ExprForm::Not(value) => ("!_", Piece::Expr(value), none),
        ExprForm::Convert(value) => ("convert", Piece::Expr(value), none),
        ExprForm::Binary { op, left, right } => {
            (binary_text(*op), Piece::Expr(left), Piece::Expr(right))
        }
        ExprForm::And { left, right } => ("&&", Piece::Expr(left), Piece::Expr(right)),
        ExprForm::Or { left, right } => ("||", Piece::Expr(left), Piece::Expr(right)),
        ExprForm::Comma { left, right } => (",", Piece::Expr(left), Piece::Expr(right)),
        ExprForm::Assign { to, value } => ("=", Piece::Target(to), Piece::Expr(value)),
        ExprForm::AssignOp { op, to, value } => {
            (assignment_text(*op), Piece::Target(to), Piece::Expr(value))
        }
        ExprForm::StepBefore { up, to } => {
            (if *up { "++_" } else { "--_" }, Piece::Target(to), none)
        }
        ExprForm::StepAfter { up, to } => {
            (if *up { "_++" } else { "_--" }, Piece::Target(to), none)
        }
        ExprForm::Call { function, args } => {
            let function = Piece::Number("f", u32::from(*function));
            ("call", function, Piece::Exprs(args))
        }
        ExprForm::In { port } => {
            let port = Piece::Number("", u32::from(port.number()));
            ("in", port, none)
        }
        ExprForm::Out { port, value } => {
            let port = Piece::Number("", u32::from(port.number()));
            ("out", port, Piece::Expr(value))
        }
        ExprForm::Pick { test, yes, no } => {
            let test = Piece::Expr(test);
            let yes = Piece::Expr(yes);
            let no = Piece::Expr(no);
            return Some(("?", test, yes, no));
        }
    };
    Some((form, first, second, none))
}

fn base_text(base: Base) -> &'static str {
    match base {
        Base::Void => "void",
        Base::Int => "int",
        Base::Unsigned => "unsigned",
    }
}

// The letter and the number of a variable.
fn lettered(variable: VarRef) -> (&'static str, u32) {
    match variable {
        VarRef::Scalar(number) => ("s", u32::from(number)),
        VarRef::Local(number) => ("l", number),
        VarRef::Static(number) => ("g", number),
    }
}

fn unary_text(op: UnaryOp) -> &'static str {
    match op {
        UnaryOp::Minus => "-_",
        UnaryOp::Plus => "+_",
        UnaryOp::Complement => "~_",
    }
}
