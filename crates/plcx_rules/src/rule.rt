//! The rules on references, pins and names.
ghost use Rattle.std.specs.Prelude.{◌≡◌};
ghost use Rattle.plcx_rules.specs.LinkRules.{number};

/// A rule from 20 to 33, in the order in which they are tested.
#[derive(Clone, Copy, Debug, PartialEq, Eq)]
pub enum LinkRule {
    /// A localId is doubled in a body.
    LocalIds,
    /// A connection names no element of the body.
    References,
    /// A connection names no output, or none where there isn't exactly one.
    Outputs,
    /// Several connections stand at a pin of a function block diagram.
    Several,
    /// An input that takes a connection has none, or an in-out pin not exactly one.
    Missing,
    /// A block's type is unknown.
    BlockTypes,
    /// A block's instance doesn't suit what it calls.
    Instances,
    /// A formal parameter is unknown, doubled or missing.
    Formals,
    /// An expression isn't what may stand there, or its name is unknown.
    Expressions,
    /// A target can't be written, or an in-out has no variable that can be.
    Targets,
    /// A connector's name is doubled, or a continuation has no connector.
    Connectors,
    /// A label is doubled, or a jump has none.
    Labels,
    /// Modifiers aren't allowed together or there.
    Modifiers,
    /// A rail, contact or coil stands in a function block diagram.
    Ladders,
}

impl LinkRule {
    /// Its number.
    pub fn number(self) -> u8
        ensures { result ≡ number self }
    {
        match self {
            LinkRule::LocalIds => 20,
            LinkRule::References => 21,
            LinkRule::Outputs => 22,
            LinkRule::Several => 23,
            LinkRule::Missing => 24,
            LinkRule::BlockTypes => 25,
            LinkRule::Instances => 26,
            LinkRule::Formals => 27,
            LinkRule::Expressions => 28,
            LinkRule::Targets => 29,
            LinkRule::Connectors => 30,
            LinkRule::Labels => 31,
            LinkRule::Modifiers => 32,
            LinkRule::Ladders => 33,
        }
    }
}
