//! What holds of the definitions, each on a function of its own.
ghost use Rattle.std.specs.Prelude.{◌≡◌, false, Option, None, List};
ghost use Rattle.plcx_types.specs.Lists.{Each};
ghost use Rattle.plcx_funcs.specs.declared.func.Func.{Func};
ghost use Rattle.plcx_model.specs.declared.body.BodyElement.{BodyElement};
ghost use Rattle.plcx_model.specs.declared.body.PinIn.{PinIn};
ghost use Rattle.plcx_model.specs.declared.broken.Broken.{Broken};
ghost use Rattle.plcx_model.specs.declared.project.Pou.{Pou};
ghost use Rattle.plcx_model.specs.declared.project.Project.{Project};
ghost use Rattle.plcx_model.specs.Sound.{Sound};
ghost use Rattle.plcx_rules.specs.CheckVerdict.{CheckVerdict};
ghost use Rattle.plcx_rules.specs.declared.callee.Callee.TheVariants as callee;
ghost use Rattle.plcx_rules.specs.declared.rule.LinkRule.{LinkRule};
ghost use Rattle.plcx_rules.specs.Items.{Item, items_of};
ghost use Rattle.plcx_rules.specs.LinkRules.{LinkVerdict, link_answer, breaks, inputs_fail};
ghost use Rattle.plcx_rules.specs.Laws.{HaveGraphs, AreSources, AreOutputs, AreCounted, NoneIsMissing};

/// A project has one verdict of the rules 20 to 36.
pub fn one_check_verdict()
    ensures { (project : Project) (v w : Option Broken) → CheckVerdict project v → CheckVerdict project w → v ≡ w }
{}

/// `link_answer` computes the verdict on the rules from 20 to 33.
pub fn link_verdict_computes()
    ensures { (project : Project) → LinkVerdict project (link_answer project.pous) }
{}

/// Where none of these rules is broken, none of the elements breaks any of them.
pub fn no_element_breaks_a_rule()
    ensures { (project : Project) → LinkVerdict project None → (r : LinkRule) → Each (λ (x : Item). breaks project.pous r x ≡ false) (items_of project.pous) }
{}

/// Where none of these rules is broken, each body of a sound project has a graph with the sources of its input pins.
pub fn bodies_have_graphs()
    ensures { (project : Project) → Sound project → LinkVerdict project None → HaveGraphs project.pous }
{}

/// The sources of a body are outputs of its elements. Where none of these rules is broken, each connection is a
/// source, and each continuation has one.
pub fn sources_are_outputs()
    ensures outputs { (elements : List BodyElement) → AreOutputs elements }
    ensures sources { (project : Project) → LinkVerdict project None → Each (λ (p : Pou). AreSources p.body.elements) project.pous }
    ensures counts { (project : Project) → LinkVerdict project None → Each (λ (p : Pou). AreCounted p.body.elements) project.pous }
{}

/// Where a function lists as many inputs as it can have, each one of its first so many and none twice, none is missing.
pub fn no_input_is_missing()
    ensures { (pous : List Pou) (f : Func) (inputs : List PinIn) → inputs_fail pous (callee.Function f) inputs ≡ false → NoneIsMissing f inputs }
{}
