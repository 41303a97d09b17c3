//! What encloses a statement.
ghost use Rattle.std.specs.Prelude.{◌≡◌};
ghost use Rattle.c_tree.specs.Labels as rules;

/// What `break` and `continue` may leave where a statement stands.
#[derive(Clone, Copy, PartialEq, Eq)]
pub enum Enclosing {
    /// Neither has anything to leave.
    Body,
    /// A switch outside any loop: `break` leaves it.
    Switch,
    /// A loop, which both may leave or go on with.
    Loop,
    /// A switch within a loop.
    SwitchInLoop,
}

impl Enclosing {
    /// Whether `break` has something to leave.
    pub fn may_break(self) -> bool
        ensures { result ≡ rules.may_break self }
    {
        match self {
            Enclosing::Body => false,
            Enclosing::Switch | Enclosing::Loop | Enclosing::SwitchInLoop => true,
        }
    }

    /// Whether `continue` has a loop to go on with.
    pub fn may_continue(self) -> bool
        ensures { result ≡ rules.may_continue self }
    {
        match self {
            Enclosing::Body | Enclosing::Switch => false,
            Enclosing::Loop | Enclosing::SwitchInLoop => true,
        }
    }

    /// What encloses the statements of a switch that stands here.
    pub fn in_switch(self) -> Enclosing
        ensures { result ≡ rules.in_switch self }
    {
        match self {
            Enclosing::Body | Enclosing::Switch => Enclosing::Switch,
            Enclosing::Loop | Enclosing::SwitchInLoop => Enclosing::SwitchInLoop,
        }
    }
}
