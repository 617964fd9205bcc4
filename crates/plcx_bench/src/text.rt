//! The text of a project, read back from its bytes.
ghost use Rattle.std.specs.Prelude.{◌≡◌, IfOk};
ghost use Rattle.plcx_meaning.specs.Ready.{IsReady};
ghost use Rattle.plcx_meaning.specs.Templates.{unit_of};
ghost use Rattle.plcx_st.specs.Meant.{meant};
ghost use Rattle.plcx_view.specs.Checked.{IsChecked};
ghost use Rattle.plcx_simulate.specs.Programs.{diagrams_in};

use plcx_check::Checked;
use plcx_jump::compile;
use plcx_read::{TextError, read_printed};
use plcx_st::Unit;
use plcx_types::NoMemory;
use plcx_unit::{Ready, UnitFault, resolve};
use std::alloc::Global;

/// The unit of a checked project, printed and read again.
fn again(alloc: Global, checked: &Checked) -> Result<Unit, NoMemory>
    requires { IsChecked checked.now.project checked.now.links checked.now.types checked.now.plan }
    ensures same { IfOk result (λ unit. meant unit ≡ unit_of (diagrams_in checked.now)) }
    ensures ready { IfOk result (λ unit. IsReady (meant unit)) }
{
    let unit = compile(alloc, checked)?;
    match read_printed(alloc, &unit) {
        Ok(again) => Ok(again),
        Err(TextError::NoMemory) => Err(NoMemory),
        Err(_) => unreachable!(),
    }
}

/// The text of a checked project: it is printed, and its bytes are read as a unit that is ready.
pub(crate) fn text_again(alloc: Global, checked: &Checked) -> Result<Ready, NoMemory>
    requires { IsChecked checked.now.project checked.now.links checked.now.types checked.now.plan }
    ensures { IfOk result (λ ready. meant ready ≡ unit_of (diagrams_in checked.now)) }
{
    let unit = again(alloc, checked)?;
    match resolve(alloc, unit) {
        Ok(ready) => Ok(ready),
        Err(error) => match error.fault {
            UnitFault::NoMemory => Err(NoMemory),
            _ => unreachable!(),
        },
    }
}
