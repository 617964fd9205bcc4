//! What functions don't take.
ghost use Rattle.std.specs.Prelude.{◌≡◌, option_map};
ghost use Rattle.plcx_conditions.specs.Expressions.{refuses};

use plcx_funcs::Func;
use plcx_signatures::result_type;
use plcx_types::Ty;

/// Whether the types of all inputs are known, and a function doesn't take them.
pub(crate) fn refuses(func: Func, types: Option<&[Ty]>) -> bool
    ensures { result ≡ refuses func (option_map (λ s. s.now) types.entry) }
{
    match types {
        None => false,
        Some(types) => result_type(func, types).is_none(),
    }
}
