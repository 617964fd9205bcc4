//! Where an expression or a statement stands.
ghost use Rattle.std.specs.Prelude.{◌≡◌, option_map, IfOk};
ghost use Rattle.plcx_conditions.specs.Known.{found, seen_in};
ghost use Rattle.plcx_known.specs.Types.{parts_of};
ghost use Rattle.plcx_known.specs.Owned.{shown_seen};
ghost use Rattle.plcx_unit.specs.Pieces.{setting_of};

use plcx_known::{Scope, Seen, VarType};
use plcx_st::Word;
use plcx_types::NoMemory;
use std::alloc::Global;

/// The POU at a place of a unit.
#[derive(Clone, Copy)]
pub(crate) struct Here<'s, 'a> {
    pub scope: &'s Scope<'a>,
    pub place: usize,
}

impl<'s, 'a> Here<'s, 'a> {
    /// What a name leads to in the POU.
    pub fn found(&self, alloc: Global, name: &Word) -> Result<Option<Seen>, NoMemory>
        ensures { IfOk result (λ seen. option_map (shown_seen (setting_of self.now).unit) seen ≡ found (setting_of self.now) name.now.name) }
    {
        let own = VarType::Block(self.place);
        Ok(self.scope.part(alloc, own, name.name.text())?)
    }

    /// What a name leads to in an instance of a type.
    pub fn part(&self, alloc: Global, ty: VarType, name: &Word) -> Result<Option<Seen>, NoMemory>
        ensures { IfOk result (λ seen. option_map (shown_seen (setting_of self.now).unit) seen ≡ seen_in (setting_of self.now).unit (parts_of (setting_of self.now).unit ty) name.now.name) }
    {
        Ok(self.scope.part(alloc, ty, name.name.text())?)
    }
}
