//! The numbers of the networks of POUs.
ghost use Rattle.std.specs.Prelude.{◌≡◌, IfOk, length, slice_get};
ghost use Rattle.std.specs.Option.{option_copied};
ghost use Rattle.plcx_drawn.specs.Shown.{shown_network};
ghost use Rattle.plcx_tables.specs.Networks.{IsNetwork};

use crate::fitting::Tables;
use crate::network::{NetworkNumbers, outputs};
use crate::placed::Table;
use plcx_drawn::Drawing;
use plcx_types::NoMemory;
use std::alloc::Global;

impl<'a> Table<'a> {
    /// How many in-outs the POU has.
    pub fn in_outs(&self) -> usize
        ensures { result ≡ length self.now.own.now.in_outs.items }
    {
        self.own.in_outs.len()
    }
}

impl<'t, 'a> Tables<'t, 'a> {
    /// The table of the POU at a place, if there is one.
    pub fn table(&self, place: usize) -> Option<&'t Table<'a>>
        ensures { option_copied result ≡ slice_get self.now.tables.now place }
    {
        self.tables.get(place)
    }

    /// The numbers of the network of the elements at these places, of the POU at a place.
    pub fn network<'d>(
        &self,
        alloc: Global,
        place: usize,
        drawing: &Drawing<'d>,
        places: &[u32],
    ) -> Result<NetworkNumbers<'t, 'a, 'd>, NoMemory>
        ensures { IfOk result (λ n. IsNetwork self.now.tables.now place (shown_network drawing.now places.now) n) }
    {
        match self.table(place) {
            None => Err(NoMemory),
            Some(own) => {
                let outputs = outputs(alloc, drawing.elements(), places)?;
                Ok(NetworkNumbers {
                    tables: self.tables,
                    own,
                    outputs,
                })
            }
        }
    }
}
