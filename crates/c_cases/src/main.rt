//! Cases of the language: sources with their tokens, their syntax trees, their typed programs, their accesses or their refusals.
//!
//! The cases are read from standard input, and the answer of each is a line of standard output, `KIND TEXT ==> ANSWER`. Nothing is
//! built on this program: the gate runs it on the file `stdin`, and compares what it puts with the file `stdout`, whose answers were
//! decided by hand.
//!
//! # Cases
//!
//! A line that is empty or begins with `#` is none. `frame BEFORE|BEHIND` has the source of each later case be BEFORE, its text and
//! BEHIND, each `|` here being two backticks, and has places count from the text on. `answers BEFORE|BEHIND`, with two backticks too,
//! says what stands around the answers then: an answer is put without it, or whole where it isn't there. A frame of its own ends an
//! earlier one and what stood around its answers. Any other line is a kind, a blank and a text:
//!
//! | Kind | Answer |
//! |---|---|
//! | `tokens` | the tokens |
//! | `count` | `N tokens` |
//! | `reads` | `a tree`, where the tokens have one |
//! | `tree` | the syntax tree |
//! | `places` | the syntax tree with places |
//! | `program` | the typed program |
//! | `accesses` | the access sequence of each function |
//! | `access-counts` | `N accesses in M blocks`, of all functions together |
//!
//! In a text, two backticks and what stands between them are `hh`, the byte of these two hexadecimal digits; or `N PIECE`, the piece
//! N times. With `?` between them the case stands for 256 cases, one for each byte there. A line of another form is answered
//! `no case`.
//!
//! # Answers
//!
//! A place is `@` and a number of bytes.
//!
//! Tokens stand one behind another between `, `, or are `none`. Each is `word`, `name`, `number`, `char` or `mark`, what it is, its
//! place, and `+` with its length in bytes. A number has its value, `unsigned` where it is marked so, or else `plain`, and `decimal`
//! or `other`.
//!
//! A syntax tree is a node in parentheses, its form first, with its place, and then its parts; a leaf is its form alone. A name is
//! itself, a number is decimal, with `#` before it where the source has it octal or hexadecimal and `u` behind it where it is marked
//! unsigned, and a character is `'` and its value. The form of an expression is its operator, with `_` for the operand of an operator
//! that has one; `[]`, `call`, `cast`, `sizeof` and `?`. A type stands between `<` and `>`. The parts of `for` that are absent are `-`.
//! A parameter or an item is its name with its stars before it, then its length in brackets or its parameters, then `=` and its value,
//! or the `list` of its values.
//!
//! A typed program is the same with other leaves. An expression has `:` and its type behind its form, and what is assigned to has a
//! place alone. `s`, `l`, `g` and `f` with a number are a scalar or a local object of the function, a static object and a function of
//! the program. A function has its result, its parameters, the types of its scalars, its local objects, and its body. An object has
//! its type, its length in brackets and the cells of its list. A block names first, in brackets, what it declares.
//!
//! An access sequence is a function's name, how many scalars its frame has, and behind a colon its blocks between ` | `, or `-` where it
//! has none. Those of several functions stand between `; `.
//!
//! A refusal is `!`, and then what is wrong and, where it has one, its place: `bad byte`, `open comment`, `bad constant`, `long name`,
//! `too many tokens` with their count, or `syntax`; the fault of types as it is named in c_types; or `memory` or `length`.
#![tactic(auto)]

mod accesses_text;
mod answer;
mod case;
mod expr_text;
mod notation;
mod operators;
mod refusal;
mod token_text;
mod tree_text;
mod typed_expr_text;
mod typed_text;

use crate::case::answers;
use std::io;
use word_base::NoMemory;

fn main(rt: HostRuntime) -> io::Result<()> {
    let cases = io::read_to_string(rt.alloc(), rt.reader())?;
    match answers(rt.alloc(), cases.as_str()) {
        Ok(lines) => print!(rt; "{lines}"),
        Err(NoMemory) => Err(io::Error::from(io::ErrorKind::OutOfMemory)),
    }
}
