//! What trees are written with: texts, places, types and expressions.
//!
//! The parts of an expression are written from a list of those that are yet to be written, so that no expression is too high for it.
use crate::operators::{assignment_text, binary_text};
use c_syntax::{Expr, ExprKind, PrefixOp, SpecWord, Specs};
use std::alloc::Global;
use word_base::NoMemory;

const MOST_PIECES: u32 = 10_000_000;

// What is yet to be written of an expression, each behind a blank but for the end of a node.
#[derive(Clone, Copy, Drop)]
enum Piece<'a> {
    Nothing,
    Close,
    Name(&'a str),
    // Words of a type with so many stars.
    Type(&'a Specs, u32),
    Expr(&'a Expr),
    Exprs(&'a [Expr]),
}

/// A writer of trees.
#[derive(Drop)]
pub(crate) struct Writer<'b> {
    pub(crate) alloc: Global,
    pub(crate) line: &'b mut String,
    /// The place from which places are counted, where they are written.
    pub(crate) base: Option<u32>,
}

impl<'b> Writer<'b> {
    pub(crate) fn text(&mut self, text: &str) -> Result<(), NoMemory> {
        self.line.push_str(text)?;
        Ok(())
    }

    fn place(&mut self, at: u32) -> Result<(), NoMemory> {
        if let Some(base) = self.base {
            write!(self.line, "@{}", at.saturating_sub(base))?;
        }
        Ok(())
    }

    /// A form and its place, behind what stands before it.
    pub(crate) fn form(&mut self, before: &str, form: &str, at: u32) -> Result<(), NoMemory> {
        write!(self.line, "{before}{form}")?;
        self.place(at)
    }

    /// A name behind so many stars.
    pub(crate) fn named(&mut self, stars: u32, name: &str) -> Result<(), NoMemory> {
        self.line.push_str(" ")?;
        self.stars(stars)?;
        self.text(name)
    }

    fn stars(&mut self, stars: u32) -> Result<(), NoMemory> {
        for _ in 0..stars {
            self.line.push_str("*")?;
        }
        Ok(())
    }

    /// A type, or words of a type without stars.
    pub(crate) fn specs(&mut self, specs: &Specs, stars: u32) -> Result<(), NoMemory> {
        self.spec_words(specs.words.as_slice())?;
        self.stars(stars)?;
        self.place(specs.at)?;
        self.text(">")
    }

    fn spec_words(&mut self, words: &[SpecWord]) -> Result<(), NoMemory> {
        let mut before = " <";
        for word in words {
            self.line.push_str(before)?;
            self.line.push_str(spec_text(*word))?;
            before = " ";
        }
        Ok(())
    }

    /// An expression, behind a text.
    pub(crate) fn expr(&mut self, before: &str, expr: &Expr) -> Result<(), NoMemory> {
        let mut todo = Vec::new(self.alloc);
        self.begin(&mut todo, before, expr)?;
        // An expression of as many tokens as a source may have has fewer pieces.
        for _ in 0..MOST_PIECES {
            match todo.pop() {
                Some(piece) => self.expr_piece(&mut todo, piece)?,
                None => return Ok(()),
            }
        }
        self.text(" too many pieces")
    }

    fn expr_piece<'a>(
        &mut self,
        todo: &mut Vec<Piece<'a>>,
        piece: Piece<'a>,
    ) -> Result<(), NoMemory> {
        match piece {
            Piece::Nothing | Piece::Exprs([]) => Ok(()),
            Piece::Close => self.text(")"),
            Piece::Name(name) => self.named(0, name),
            Piece::Type(specs, stars) => self.specs(specs, stars),
            Piece::Expr(expr) => self.begin(todo, " ", expr),
            Piece::Exprs([first, rest @ ..]) => {
                todo.push(Piece::Exprs(rest))?;
                self.begin(todo, " ", first)
            }
        }
    }

    // An expression, or its form where it has parts, which are yet to be written then.
    fn begin<'a>(
        &mut self,
        todo: &mut Vec<Piece<'a>>,
        before: &str,
        expr: &'a Expr,
    ) -> Result<(), NoMemory> {
        match shape(&expr.kind) {
            Some((form, first, second, third)) => {
                write!(self.line, "{before}(")?;
                self.form("", form, expr.at)?;
                follow(todo, first, second, third)
            }
            None => self.leaf(before, expr),
        }
    }

    fn leaf(&mut self, before: &str, expr: &Expr) -> Result<(), NoMemory> {
        match &expr.kind {
            ExprKind::Name(name) => write!(self.line, "{before}{}", name.as_str())?,
            ExprKind::Number {
                value,
                unsigned_mark,
                decimal,
            } => {
                let other = if *decimal { "" } else { "#" };
                let mark = if *unsigned_mark { "u" } else { "" };
                write!(self.line, "{before}{other}{value}{mark}")?;
            }
            ExprKind::Char(value) => write!(self.line, "{before}'{value}")?,
            _ => {}
        }
        self.place(expr.at)
    }
}

// Has these parts of a node written next, and then its end.
fn follow<'a>(
    todo: &mut Vec<Piece<'a>>,
    first: Piece<'a>,
    second: Piece<'a>,
    third: Piece<'a>,
) -> Result<(), NoMemory> {
    todo.push(Piece::Close)?;
    todo.push(third)?;
    todo.push(second)?;
    todo.push(first)?;
    Ok(())
}

// The form of an expression and its parts, where it has any.
fn shape<'a>(kind: &'a ExprKind) -> Option<(&'static str, Piece<'a>, Piece<'a>, Piece<'a>)> {
    let none = Piece::Nothing;
    let (form, first, second) = match kind {
        ExprKind::Name(_) | ExprKind::Number { .. } | ExprKind::Char(_) => return None,
        ExprKind::Index { operand, index } => ("[]", Piece::Expr(operand), Piece::Expr(index)),
        ExprKind::Call { name, arguments } => {
            ("call", Piece::Name(name.as_str()), Piece::Exprs(arguments))
        }
        ExprKind::StepAfter { up, operand } => {
            (if *up { "_++" } else { "_--" }, Piece::Expr(operand), none)
        }
        ExprKind::StepBefore { up, operand } => {
            (if *up { "++_" } else { "--_" }, Piece::Expr(operand), none)
        }
        ExprKind::Prefix { op, operand } => (prefix_text(*op), Piece::Expr(operand), none),
        ExprKind::SizeofValue(operand) => ("sizeof", Piece::Expr(operand), none),
        ExprKind::SizeofType(of) => ("sizeof", Piece::Type(&of.specs, of.stars), none),
        ExprKind::Cast { to, operand } => (
            "cast",
            Piece::Type(&to.specs, to.stars),
            Piece::Expr(operand),
        ),
        ExprKind::Binary { op, left, right } => {
            (binary_text(*op), Piece::Expr(left), Piece::Expr(right))
        }
        ExprKind::AssignOp { op, left, right } => {
            (assignment_text(*op), Piece::Expr(left), Piece::Expr(right))
        }
        ExprKind::And { left, right } => ("&&", Piece::Expr(left), Piece::Expr(right)),
        ExprKind::Or { left, right } => ("||", Piece::Expr(left), Piece::Expr(right)),
        ExprKind::Assign { left, right } => ("=", Piece::Expr(left), Piece::Expr(right)),
        ExprKind::Comma { left, right } => (",", Piece::Expr(left), Piece::Expr(right)),
        ExprKind::Conditional { test, yes, no } => {
            let test = Piece::Expr(test);
            let yes = Piece::Expr(yes);
            let no = Piece::Expr(no);
            return Some(("?", test, yes, no));
        }
    };
    Some((form, first, second, none))
}

fn spec_text(word: SpecWord) -> &'static str {
    match word {
        SpecWord::Static => "static",
        SpecWord::Void => "void",
        SpecWord::Char => "char",
        SpecWord::Short => "short",
        SpecWord::Int => "int",
        SpecWord::Signed => "signed",
        SpecWord::Unsigned => "unsigned",
    }
}

fn prefix_text(op: PrefixOp) -> &'static str {
    match op {
        PrefixOp::Address => "&_",
        PrefixOp::Pointed => "*_",
        PrefixOp::Plus => "+_",
        PrefixOp::Minus => "-_",
        PrefixOp::Complement => "~_",
        PrefixOp::Not => "!_",
    }
}
