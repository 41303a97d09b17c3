//! The tree of a source as one line: each node in parentheses, its form first and then its parts.
//!
//! Statements are written from a list of what is yet to be written, so that no statement is too high for it.
use crate::expr_text::Writer;
use c_syntax::{
    Brackets, Decl, Expr, External, FunctionDef, Init, Item, ItemKind, Param, Params, Stmt,
    StmtKind, SwitchPart,
};
use std::alloc::Global;
use word_base::NoMemory;

const MOST_PIECES: u32 = 10_000_000;

// What is yet to be written of a statement, each behind a blank but for the end of a node.
#[derive(Clone, Copy, Drop)]
enum Piece<'a> {
    Nothing,
    Close,
    // The test of a loop that is behind its body.
    Test(&'a Expr),
    Stmt(&'a Stmt),
    Stmts(&'a [Stmt]),
    Choices(&'a [SwitchPart]),
}

/// Puts a source's tree behind, with places from `base` on where that is given.
pub(crate) fn push_tree(
    alloc: Global,
    line: &mut String,
    externals: &[External],
    base: Option<u32>,
) -> Result<(), NoMemory> {
    let mut writer = Writer { alloc, line, base };
    writer.text("(unit")?;
    for external in externals {
        match external {
            External::Declaration(decl) => writer.decl(decl)?,
            External::Function(function) => writer.function(function)?,
        }
    }
    writer.text(")")
}

impl<'b> Writer<'b> {
    fn function(&mut self, function: &FunctionDef) -> Result<(), NoMemory> {
        self.form(" (", "function", function.at)?;
        self.specs(&function.specs, 0)?;
        self.named(function.stars, function.name.as_str())?;
        self.params(&function.params)?;
        self.form(" (", "block", function.body_at)?;
        self.decls(function.declarations.as_slice())?;
        self.stmts(function.statements.as_slice())?;
        self.text("))")
    }

    fn params(&mut self, params: &Params) -> Result<(), NoMemory> {
        self.form(" (", "params", params.at)?;
        for param in params.list.as_slice() {
            self.param(param)?;
        }
        self.text(")")
    }

    fn param(&mut self, param: &Param) -> Result<(), NoMemory> {
        self.form(" (", "param", param.at)?;
        self.specs(&param.specs, 0)?;
        match &param.name {
            Some(name) => self.named(param.stars, name.as_str())?,
            None if param.stars > 0 => self.named(param.stars, "")?,
            None => {}
        }
        if let Some(brackets) = &param.array {
            self.brackets(brackets)?;
        }
        self.text(")")
    }

    fn brackets(&mut self, brackets: &Brackets) -> Result<(), NoMemory> {
        self.text(" [")?;
        if let Brackets::Sized(length) = brackets {
            self.expr("", length)?;
        }
        self.text("]")
    }

    fn decls(&mut self, decls: &[Decl]) -> Result<(), NoMemory> {
        for decl in decls {
            self.decl(decl)?;
        }
        Ok(())
    }

    fn decl(&mut self, decl: &Decl) -> Result<(), NoMemory> {
        self.form(" (", "decl", decl.at)?;
        self.specs(&decl.specs, 0)?;
        for item in decl.items.as_slice() {
            self.item(item)?;
        }
        self.text(")")
    }

    fn item(&mut self, item: &Item) -> Result<(), NoMemory> {
        self.form(" (", "item", item.at)?;
        self.named(item.stars, item.name.as_str())?;
        match &item.kind {
            ItemKind::Plain => {}
            ItemKind::Function(params) => self.params(params)?,
            ItemKind::Array(brackets) => self.brackets(brackets)?,
        }
        if let Some(init) = &item.init {
            self.init(init)?;
        }
        self.text(")")
    }

    fn init(&mut self, init: &Init) -> Result<(), NoMemory> {
        self.text(" =")?;
        match init {
            Init::One(value) => self.expr(" ", value),
            Init::Braced { values, at } => {
                self.form(" (", "list", *at)?;
                self.exprs(values.as_slice())?;
                self.text(")")
            }
        }
    }

    fn exprs(&mut self, exprs: &[Expr]) -> Result<(), NoMemory> {
        for expr in exprs {
            self.expr(" ", expr)?;
        }
        Ok(())
    }

    fn stmts(&mut self, stmts: &[Stmt]) -> Result<(), NoMemory> {
        let mut todo = Vec::new(self.alloc);
        todo.push(Piece::Stmts(stmts))?;
        // A tree of as many tokens as a source may have has fewer pieces.
        for _ in 0..MOST_PIECES {
            match todo.pop() {
                Some(piece) => self.stmt_piece(&mut todo, piece)?,
                None => return Ok(()),
            }
        }
        self.text(" too many pieces")
    }

    fn stmt_piece<'a>(
        &mut self,
        todo: &mut Vec<Piece<'a>>,
        piece: Piece<'a>,
    ) -> Result<(), NoMemory> {
        match piece {
            Piece::Nothing | Piece::Stmts([]) | Piece::Choices([]) => Ok(()),
            Piece::Close => self.text(")"),
            Piece::Test(test) => self.expr(" ", test),
            Piece::Stmt(stmt) => self.stmt(todo, stmt),
            Piece::Stmts([first, rest @ ..]) => {
                todo.push(Piece::Stmts(rest))?;
                self.stmt(todo, first)
            }
            Piece::Choices([first, rest @ ..]) => {
                todo.push(Piece::Choices(rest))?;
                self.choice(todo, first)
            }
        }
    }

    fn choice<'a>(
        &mut self,
        todo: &mut Vec<Piece<'a>>,
        choice: &'a SwitchPart,
    ) -> Result<(), NoMemory> {
        match choice {
            SwitchPart::Case(value) => {
                self.text(" (case")?;
                self.expr(" ", value)?;
                self.text(")")
            }
            SwitchPart::Default => self.text(" default"),
            SwitchPart::Body(stmt) => self.stmt(todo, stmt),
        }
    }

    // The form of a statement and what it begins with, where what follows is yet to be written then.
    fn stmt<'a>(&mut self, todo: &mut Vec<Piece<'a>>, stmt: &'a Stmt) -> Result<(), NoMemory> {
        let (form, pieces) = shape(&stmt.kind);
        if matches!(pieces, [Piece::Nothing, ..]) {
            return self.form(" ", form, stmt.at);
        }
        self.form(" (", form, stmt.at)?;
        self.front(&stmt.kind)?;
        for piece in pieces {
            todo.push(piece)?;
        }
        Ok(())
    }

    // What a statement has before its first statement.
    fn front(&mut self, kind: &StmtKind) -> Result<(), NoMemory> {
        match kind {
            StmtKind::Evaluate(value) | StmtKind::Return(Some(value)) => self.expr(" ", value),
            StmtKind::If { test, .. }
            | StmtKind::IfElse { test, .. }
            | StmtKind::While { test, .. } => self.expr(" ", test),
            StmtKind::Block { declarations, .. } => self.decls(declarations),
            StmtKind::For {
                first,
                test,
                third,
                ..
            } => {
                self.optional(first)?;
                self.optional(test)?;
                self.optional(third)
            }
            StmtKind::Switch {
                value,
                parts_at,
                ..
            } => {
                self.expr(" ", value)?;
                self.form(" (", "choices", *parts_at)
            }
            _ => Ok(()),
        }
    }

    // A part of `for` that may be absent.
    fn optional(&mut self, expr: &Option<Expr>) -> Result<(), NoMemory> {
        match expr {
            Some(expr) => self.expr(" ", expr),
            None => self.text(" -"),
        }
    }
}

// The form of a statement, and what follows its front, the last first: nothing where it is a form alone.
fn shape<'a>(kind: &'a StmtKind) -> (&'static str, [Piece<'a>; 3]) {
    let none = Piece::Nothing;
    let close = Piece::Close;
    match kind {
        StmtKind::Empty => (";", [none, none, none]),
        StmtKind::Break => ("break", [none, none, none]),
        StmtKind::Continue => ("continue", [none, none, none]),
        StmtKind::Evaluate(_) => ("eval", [close, none, none]),
        StmtKind::Return(_) => ("return", [close, none, none]),
        StmtKind::Block { statements, .. } => ("block", [close, Piece::Stmts(statements), none]),
        StmtKind::If { yes, .. } => ("if", [close, Piece::Stmt(yes), none]),
        StmtKind::IfElse { yes, no, .. } => ("if-else", [close, Piece::Stmt(no), Piece::Stmt(yes)]),
        StmtKind::Do { body, test } => ("do", [close, Piece::Test(test), Piece::Stmt(body)]),
        StmtKind::While { body, .. } => ("while", [close, Piece::Stmt(body), none]),
        StmtKind::For { body, .. } => ("for", [close, Piece::Stmt(body), none]),
        StmtKind::Switch { parts, .. } => ("switch", [close, close, Piece::Choices(parts)]),
    }
}
