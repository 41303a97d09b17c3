//! What a command has.

/// How a number is given.
#[derive(Clone, Copy)]
pub enum Form<'a> {
    /// By a word that has to be there.
    Word,
    /// By `--ID N`, where this is the usual text of it.
    Long(&'a str),
    /// By `-c N`, where these are the letter and the usual text.
    Letter(char, &'a str),
}

/// A number from 1 to the greatest one.
#[derive(Clone, Copy)]
pub struct Number<'a> {
    /// What it is called.
    pub id: &'a str,
    /// How it is given.
    pub form: Form<'a>,
    /// The greatest that it may be.
    pub greatest: u32,
}

/// Names of which at least one has to be there.
#[derive(Clone, Copy)]
pub struct Names<'a> {
    /// What they are called.
    pub id: &'a str,
    /// The most that there may be, at least one.
    pub most: usize,
}

/// A command of at most four names, which have to be there, behind them at most three numbers, and then further names.
#[derive(Clone, Copy)]
pub struct Table<'a> {
    /// The word that chooses the command.
    pub name: &'a str,
    /// What its first name is called.
    pub first: Option<&'a str>,
    /// What its second name is called.
    pub second: Option<&'a str>,
    /// What its third name is called.
    pub third: Option<&'a str>,
    /// What its fourth name is called.
    pub fourth: Option<&'a str>,
    /// Its first number.
    pub one: Option<Number<'a>>,
    /// Its second number.
    pub two: Option<Number<'a>>,
    /// Its third number.
    pub three: Option<Number<'a>>,
    /// Its names behind these.
    pub rest: Option<Names<'a>>,
}
