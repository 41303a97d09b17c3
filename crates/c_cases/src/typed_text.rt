//! The typed program of a source as one line: each node in parentheses, its form first and then its parts.
//!
//! Statements are written from a list of what is yet to be written, so that no statement is too high for it.
use crate::typed_expr_text::Writer;
use c_tree::{
    Choice, Function, Initial, Object, Program, ScalarType, TypedExpr, TypedStmt, VarRef,
};
use std::alloc::Global;
use word_base::NoMemory;

const MOST_PIECES: u32 = 10_000_000;

// What is yet to be written of a statement, each behind a blank but for the end of a node.
#[derive(Clone, Copy, Drop)]
enum Piece<'a> {
    Nothing,
    Close,
    // The test of a loop that is behind its body.
    Test(&'a TypedExpr),
    Stmt(&'a TypedStmt),
    Stmts(&'a [TypedStmt]),
    Choices(&'a [Choice]),
}

/// Puts a program behind, with places from `base` on.
pub(crate) fn push_program(
    alloc: Global,
    line: &mut String,
    program: &Program,
    base: u32,
) -> Result<(), NoMemory> {
    let mut writer = Writer { alloc, line, base };
    writer.text("(program")?;
    writer.objects("static", program.statics.as_slice())?;
    for function in program.functions.as_slice() {
        writer.function(function)?;
    }
    writer.text(")")
}

impl<'b> Writer<'b> {
    fn objects(&mut self, form: &str, objects: &[Object]) -> Result<(), NoMemory> {
        for object in objects {
            self.object(form, object)?;
        }
        Ok(())
    }

    fn object(&mut self, form: &str, object: &Object) -> Result<(), NoMemory> {
        write!(self.line, " ({form} {} ", object.name.as_str())?;
        self.scalar_type(object.kind)?;
        write!(self.line, "[{}]", object.length)?;
        for initial in object.initial.as_slice() {
            self.initial(*initial)?;
        }
        self.text(")")
    }

    fn initial(&mut self, initial: Initial) -> Result<(), NoMemory> {
        match initial {
            Initial::Word(word) => self.numbered("", u32::from(word)),
            Initial::Address { object, index } => Ok(write!(self.line, " g{object}+{index}")?),
            Initial::Null => self.text(" null"),
        }
    }

    fn function(&mut self, function: &Function) -> Result<(), NoMemory> {
        write!(self.line, " (function {} ", function.name.as_str())?;
        self.kind(function.result)?;
        self.variables(" (params", " ", function.params.as_slice())?;
        self.text(") (scalars")?;
        self.types(function.scalars.as_slice())?;
        self.text(")")?;
        self.objects("local", function.locals.as_slice())?;
        self.body(&function.body)?;
        self.text(")")
    }

    // Variables behind a text, the first one behind another.
    fn variables(&mut self, open: &str, first: &str, variables: &[VarRef]) -> Result<(), NoMemory> {
        self.line.push_str(open)?;
        let mut before = first;
        for variable in variables {
            self.variable(before, *variable)?;
            before = " ";
        }
        Ok(())
    }

    fn types(&mut self, types: &[ScalarType]) -> Result<(), NoMemory> {
        for of in types {
            self.line.push_str(" ")?;
            self.scalar_type(*of)?;
        }
        Ok(())
    }

    // A function's body, from which all pieces come.
    fn body(&mut self, body: &TypedStmt) -> Result<(), NoMemory> {
        let mut todo = Vec::new(self.alloc);
        todo.push(Piece::Stmt(body))?;
        // A tree of as many tokens as a source may have has fewer pieces.
        for _ in 0..MOST_PIECES {
            match todo.pop() {
                Some(piece) => self.stmt_piece(&mut todo, piece)?,
                None => return Ok(()),
            }
        }
        self.text(" too many pieces")
    }

    fn stmt_piece<'a>(
        &mut self,
        todo: &mut Vec<Piece<'a>>,
        piece: Piece<'a>,
    ) -> Result<(), NoMemory> {
        match piece {
            Piece::Nothing | Piece::Stmts([]) | Piece::Choices([]) => Ok(()),
            Piece::Close => self.text(")"),
            Piece::Test(test) => self.expr(test),
            Piece::Stmt(stmt) => self.stmt(todo, stmt),
            Piece::Stmts([first, rest @ ..]) => {
                todo.push(Piece::Stmts(rest))?;
                self.stmt(todo, first)
            }
            Piece::Choices([first, rest @ ..]) => {
                todo.push(Piece::Choices(rest))?;
                self.choice(todo, first)
            }
        }
    }

    fn choice<'a>(
        &mut self,
        todo: &mut Vec<Piece<'a>>,
        choice: &'a Choice,
    ) -> Result<(), NoMemory> {
        match choice {
            Choice::Case(word) => Ok(write!(self.line, " (case {word})")?),
            Choice::Default => self.text(" default"),
            Choice::Body(stmt) => self.stmt(todo, stmt),
        }
    }

    // The form of a statement and what it begins with, where what follows is yet to be written then.
    fn stmt<'a>(&mut self, todo: &mut Vec<Piece<'a>>, stmt: &'a TypedStmt) -> Result<(), NoMemory> {
        let (form, pieces) = shape(stmt);
        self.text(form)?;
        self.front(stmt)?;
        for piece in pieces {
            todo.push(piece)?;
        }
        Ok(())
    }

    // What a statement has before its first statement.
    fn front(&mut self, stmt: &TypedStmt) -> Result<(), NoMemory> {
        match stmt {
            TypedStmt::Fill(number) => Ok(write!(self.line, "{number}")?),
            TypedStmt::Return(Some(value)) | TypedStmt::Expr(value) => self.expr(value),
            TypedStmt::Switch { value, .. } => self.expr(value),
            TypedStmt::If { test, .. } | TypedStmt::While { test, .. } => self.expr(test),
            TypedStmt::Block { declared, .. } => {
                self.variables("", "", declared)?;
                self.text("]")
            }
            TypedStmt::For {
                first,
                test,
                third,
                ..
            } => {
                self.optional(first)?;
                self.optional(test)?;
                self.optional(third)
            }
            _ => Ok(()),
        }
    }

    // A part of `for` that may be absent.
    fn optional(&mut self, expr: &Option<TypedExpr>) -> Result<(), NoMemory> {
        match expr {
            Some(expr) => self.expr(expr),
            None => self.text(" -"),
        }
    }
}

// How a statement begins, and what follows its front, the last first.
fn shape<'a>(stmt: &'a TypedStmt) -> (&'static str, [Piece<'a>; 3]) {
    let none = Piece::Nothing;
    let close = Piece::Close;
    match stmt {
        TypedStmt::Break => (" break", [none, none, none]),
        TypedStmt::Continue => (" continue", [none, none, none]),
        TypedStmt::Fill(_) => (" (fill l", [close, none, none]),
        TypedStmt::Return(_) => (" (return", [close, none, none]),
        TypedStmt::Expr(_) => (" (eval", [close, none, none]),
        TypedStmt::Block { body, .. } => (" (block [", [close, Piece::Stmts(body), none]),
        TypedStmt::If { yes, no, .. } if is_empty(no) => (" (if", [close, Piece::Stmt(yes), none]),
        TypedStmt::If { yes, no, .. } => {
            (" (if-else", [close, Piece::Stmt(no), Piece::Stmt(yes)])
        }
        TypedStmt::While { body, .. } => (" (while", [close, Piece::Stmt(body), none]),
        TypedStmt::Do { body, test } => (" (do", [close, Piece::Test(test), Piece::Stmt(body)]),
        TypedStmt::For { body, .. } => (" (for", [close, Piece::Stmt(body), none]),
        TypedStmt::Switch { choices, .. } => (" (switch", [close, Piece::Choices(choices), none]),
    }
}

// Whether a statement is the block that stands for an absent else.
fn is_empty(stmt: &TypedStmt) -> bool {
    match stmt {
        TypedStmt::Block { declared, body } => declared.is_empty() && body.is_empty(),
        _ => false,
    }
}
