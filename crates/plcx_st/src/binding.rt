//! How tightly operators bind.
ghost use Rattle.std.specs.Prelude.{◌≡◌, ◌<◌};
ghost use Rattle.plcx_st.specs.Grammar.{level};

use crate::tree::Op;

/// The greater, the tighter.
pub fn level(op: Op) -> u8
    ensures value { result ≡ level op }
    ensures small { result < 7 }
{
    match op {
        Op::Or => 0,
        Op::Xor => 1,
        Op::And => 2,
        Op::Equal | Op::NotEqual => 3,
        Op::Less | Op::Greater | Op::LessOrEqual | Op::GreaterOrEqual => 4,
        Op::Plus | Op::Minus => 5,
        Op::Times | Op::Divide | Op::Mod => 6,
    }
}
