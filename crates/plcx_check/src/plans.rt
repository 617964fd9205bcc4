//! The plans of bodies: networks in their order, and feedback.
ghost use Rattle.std.specs.Prelude.{◌≡◌, IfOk, take};
ghost use Rattle.plcx_model.specs.Numbering.{body_graph, HasGraph};
ghost use Rattle.plcx_rules.specs.Laws.{HaveGraphs};
ghost use Rattle.plcx_rules.specs.Sources.{links_of};
ghost use Rattle.plcx_view.specs.Checked.{IsBodyPlan, ArePlans};

use plcx_model::{Body, BodyPlan, Links, Plan, Pou, Source, Wires};
use plcx_order::{feedback_uncounted, networks_uncounted, orders_uncounted};
use plcx_types::NoMemory;
use sqlite_items::Items;
use std::alloc::Global;

/// The plan of one body.
fn body_plan(alloc: Global, body: &Body, sources: &[Items<Source>]) -> Result<BodyPlan, NoMemory>
    requires { HasGraph body.now.elements sources.now }
    ensures { IfOk result (λ plan. IsBodyPlan (body_graph body.now.elements sources.now) plan) }
{
    let wires = Wires::of(alloc, body, sources)?;
    let networks = networks_uncounted(alloc, &wires)?;
    let marks = feedback_uncounted(alloc, &wires)?;
    let orders = orders_uncounted(alloc, &wires, &networks, &marks)?;
    Ok(BodyPlan {
        networks: Items::from_vec(orders),
        marks: Items::from_vec(marks),
    })
}

/// The plan of all bodies.
pub fn plan(alloc: Global, pous: &[Pou], links: &Links) -> Result<Plan, NoMemory>
    requires graphs { HaveGraphs pous.now }
    requires links { links.now.bodies ≡ links_of pous.now }
    ensures { IfOk result (λ plan. ArePlans pous.now plan.bodies) }
{
    let bodies = links.bodies();
    let mut plans = Vec::new(alloc);
    for place in 0..pous.len() {
        plans.push(body_plan(alloc, &pous[place].body, bodies[place].as_slice())?)?;
    }
    Ok(Plan {
        bodies: Items::from_vec(plans),
    })
}
