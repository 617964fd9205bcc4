//! What the types of a body go by: its elements, input pins and wires, and where their types come from.
ghost use Rattle.std.specs.Prelude.{◌≡◌, ◌<◌, ◌^◌, ◌+◌, ◌||◌, true, false, List, nat_eq, ◌++◌, ◌∷◌, ◌&&◌, [], None, Some, not, map, drop, length, option_map, IfOk, OnOk};
ghost use Rattle.std.specs.List.{list_any, filter};
ghost use Rattle.std.specs.Option.{option_to_list};
ghost use Rattle.plcx_funcs.specs.declared.pins.Class.TheVariants.{Fixed, Group};
ghost use Rattle.plcx_funcs.specs.Pins.{group_types, output_class};
ghost use Rattle.plcx_rules.specs.Texts.{is_empty};
ghost use Rattle.plcx_model.specs.declared.body.PinIn.{PinIn};
ghost use Rattle.plcx_model.specs.declared.body.PinOut.{PinOut};
ghost use Rattle.plcx_model.specs.declared.body.BodyElement.{BodyElement};
ghost use Rattle.plcx_rules.specs.Callees.{is_enable, is_connected, input_count, result_count, is_eno, is_result, output_name, is_function};
ghost use Rattle.plcx_rules.specs.Forms.{pin, bool_class, bool_out, apart, passing, text_gives, declared, is_modified, input_class_of, in_out_class_of, output_gives, gives_class, grouping_at, grouping_of, has_eno, result_wires, block_pins, block_outputs, block_wires, element_pins, form_of, value_wires, element_wires, pins_from, wires_from};
ghost use Rattle.plcx_rules.specs.Helds.{text_held};
ghost use Rattle.plcx_rules.specs.declared.form.Outputs.TheVariants.{Absent};
ghost use Rattle.plcx_model.specs.declared.project.Pou.{Pou};
ghost use Rattle.plcx_typing.specs.Building.{literal_gives, gives_as, wire_as, input_pin, in_out_pin, listed_out, output_wire, block_form, bool_wire, value_form, is_plain};

use plcx_funcs::{Allowed, Class, Func, FuncPins};
use plcx_model::{BodyElement, Kind, Mods, PinIn, PinOut, Storage};
use plcx_names::{
    Held, Owner, Scope, input_count, is_connected, is_enable, is_eno, is_function, output_name,
    result_count, text_held,
};
use plcx_rules::{Callee, Form, Gives, Grouping, Out, Outputs, Pin, WireForm};
use plcx_types::{Literal, NoMemory, Ty, Val};
use sqlite_items::Items;
use std::alloc::Global;

/// The elements, the input pins and the wires of a body.
#[derive(Drop)]
pub(crate) struct Layout {
    pub forms: Vec<Form>,
    pub pins: Vec<Pin>,
    pub wires: Vec<WireForm>,
}

// ---- texts

fn literal_gives(literal: &Literal) -> Gives
    ensures { result ≡ literal_gives literal.now }
{
    match literal {
        Literal::Typed(value) => Gives::Typed(value.ty()),
        Literal::Whole(n) => Gives::Untyped(*n),
    }
}

fn gives_as(held: &Option<Held>) -> Gives
    ensures { result ≡ gives_as held.now }
{
    match held {
        Some(Held::Literal(literal)) => literal_gives(literal),
        Some(Held::Variable { ty, .. }) => Gives::Typed(*ty),
        Some(Held::Output(ty)) => Gives::Typed(*ty),
        Some(Held::Instance) | None => Gives::Nothing,
    }
}

fn wire_as(element: u32, held: &Option<Held>) -> Option<WireForm>
    ensures { result ≡ wire_as element held.now }
{
    match held {
        Some(Held::Literal(_)) => None,
        Some(Held::Variable { ty, .. }) => Some(wire(element, Gives::Typed(*ty))),
        Some(Held::Output(ty)) => Some(wire(element, Gives::Typed(*ty))),
        Some(Held::Instance) | None => Some(wire(element, Gives::Nothing)),
    }
}

fn declared(gives: Gives) -> Option<Ty>
    ensures { result ≡ declared gives }
{
    match gives {
        Gives::Typed(ty) => Some(ty),
        Gives::Grouped | Gives::Untyped(_) | Gives::Nothing => None,
    }
}

/// The type that the variable of an element has.
#[tactic(auto, using(crate::proofs::Built::gives_is), unfolding(plcx_rules::specs::Forms::text_gives))]
fn declared_type(
    alloc: Global,
    scope: &Scope,
    owner: &Owner,
    text: &[u8],
) -> Result<Option<Ty>, NoMemory>
    ensures { IfOk result (λ ty. ty ≡ declared (text_gives scope.now owner.now text.now)) }
{
    match text_held(alloc, scope, owner, text) {
        Ok(held) => Ok(declared(gives_as(&held))),
        Err(_) => Err(NoMemory),
    }
}

/// What an inVariable gives, and its wire.
#[tactic(auto, using(crate::proofs::Built::gives_is, crate::proofs::Built::wire_is), unfolding(plcx_rules::specs::Forms::text_gives))]
fn value_of(
    alloc: Global,
    scope: &Scope,
    owner: &Owner,
    element: u32,
    text: &[u8],
) -> Result<(Gives, Option<WireForm>), NoMemory>
    ensures gives { IfOk result (λ value. value.0 ≡ text_gives scope.now owner.now text.now) }
    ensures wire { IfOk result (λ value. option_to_list value.1 ≡ value_wires element (text_held scope.now owner.now text.now)) }
{
    match text_held(alloc, scope, owner, text) {
        Ok(held) => Ok((gives_as(&held), wire_as(element, &held))),
        Err(_) => Err(NoMemory),
    }
}

fn fixed(ty: Option<Ty>) -> Option<Class>
    ensures { result ≡ option_map Fixed ty }
{
    match ty {
        Some(ty) => Some(Class::Fixed(ty)),
        None => None,
    }
}

fn is_modified(mods: Mods) -> bool
    ensures { result ≡ is_modified mods }
{
    mods.negated || !matches!(mods.storage, Storage::Plain)
}

// ---- parts

fn pin(element: u32, class: Option<Class>, modified: bool) -> Pin
    ensures { result ≡ record { element = element; class = class; modified = modified } }
{
    Pin {
        element,
        class,
        modified,
    }
}

fn wire(element: u32, gives: Gives) -> WireForm
    ensures { result ≡ record { element = element; gives = gives } }
{
    WireForm { element, gives }
}

fn bool_pin(element: u32) -> Option<Pin>
    ensures { result ≡ Some (pin element bool_class false) }
{
    Some(pin(element, Some(Class::Fixed(Ty::Bool)), false))
}

fn group_pin(element: u32) -> Option<Pin>
    ensures { result ≡ Some (pin element (Some Group) false) }
{
    Some(pin(element, Some(Class::Group), false))
}

fn bool_wire(element: u32) -> Option<WireForm>
    ensures { result ≡ Some (bool_wire element) }
{
    Some(wire(element, Gives::Typed(Ty::Bool)))
}

fn value_form(gives: Gives, negated: bool) -> Form
    ensures { result ≡ value_form gives negated }
{
    apart(Outputs::Single(Out { gives, negated }), None)
}

fn bool_out() -> Outputs
    ensures { result ≡ bool_out }
{
    Outputs::Single(Out {
        gives: Gives::Typed(Ty::Bool),
        negated: false,
    })
}

fn apart(outputs: Outputs, operand: Option<Ty>) -> Form
    ensures { result ≡ apart outputs operand }
{
    Form {
        outputs,
        grouping: Grouping::Apart,
        operand,
    }
}

fn passing() -> Form
    ensures { result ≡ passing }
{
    Form {
        outputs: Outputs::Single(Out {
            gives: Gives::Grouped,
            negated: false,
        }),
        grouping: Grouping::Passing,
        operand: None,
    }
}

// ---- blocks

fn gives_class(class: Option<Class>) -> Gives
    ensures { result ≡ gives_class class }
{
    match class {
        Some(Class::Fixed(ty)) => Gives::Typed(ty),
        Some(Class::Group) => Gives::Grouped,
        Some(Class::Lone) | None => Gives::Nothing,
    }
}

#[tactic(auto, unfolding(plcx_rules::specs::Callees::inputs_of))]
fn input_class(
    alloc: Global,
    scope: &Scope,
    callee: Option<Callee>,
    inputs: &[PinIn],
    count: usize,
    pin: &PinIn,
) -> Result<Option<Class>, NoMemory>
    requires { count ≡ input_count inputs.now }
    ensures { IfOk result (λ class. class ≡ input_class_of scope.now callee inputs.now pin.now) }
{
    match callee {
        Some(callee) => Ok(scope.input_class(alloc, callee, count, pin.formal.as_slice())?),
        None => Ok(None),
    }
}

fn in_out_class(
    alloc: Global,
    scope: &Scope,
    callee: Option<Callee>,
    pin: &PinIn,
) -> Result<Option<Class>, NoMemory>
    ensures { IfOk result (λ class. class ≡ in_out_class_of scope.now callee pin.now) }
{
    match callee {
        Some(callee) => Ok(scope.in_out_class(alloc, callee, pin.formal.as_slice())?),
        None => Ok(None),
    }
}

fn output_gives(
    alloc: Global,
    scope: &Scope,
    callee: Option<Callee>,
    outputs: &[PinOut],
    count: usize,
    output: &PinOut,
) -> Result<Gives, NoMemory>
    requires { count ≡ result_count outputs.now }
    ensures { IfOk result (λ gives. gives ≡ output_gives scope.now callee outputs.now output.now) }
{
    let Some(callee) = callee else {
        return Ok(Gives::Nothing);
    };
    let name = output_name(is_function(callee), count, output);
    Ok(gives_class(scope.output_class(alloc, callee, name)?))
}

fn function_grouping(func: Func) -> Grouping
    ensures { result ≡ grouping_at (group_types func) }
{
    match func {
        Func::Add | Func::Sub => Grouping::Function(Allowed::WholeTime),
        Func::Mul | Func::Div | Func::Mod | Func::Abs => Grouping::Function(Allowed::Whole),
        Func::And | Func::Or | Func::Xor | Func::Not => Grouping::Function(Allowed::Bits),
        Func::Shl | Func::Shr | Func::Rol | Func::Ror => Grouping::Function(Allowed::Words),
        Func::Move | Func::Sel | Func::Max | Func::Min | Func::Limit | Func::Mux => {
            Grouping::Function(Allowed::All)
        }
        Func::Gt | Func::Ge | Func::Eq | Func::Le | Func::Lt | Func::Ne => {
            Grouping::Function(Allowed::All)
        }
        Func::Conv { .. } => Grouping::Apart,
    }
}

fn grouping_of(callee: Option<Callee>) -> Grouping
    ensures { result ≡ grouping_of callee }
{
    match callee {
        Some(Callee::Function(func)) => function_grouping(func),
        Some(Callee::Standard(_)) | Some(Callee::Block(_)) | None => Grouping::Apart,
    }
}

fn output_class(func: Func) -> Class
    ensures { result ≡ output_class func }
{
    let pins = FuncPins {
        func,
        inputs: 0,
        allowed: Allowed::Nothing,
    };
    pins.out()
}

fn has_enable(inputs: &[PinIn]) -> bool
    ensures { result ≡ list_any (λ p. is_enable p && is_connected p) inputs.now }
{
    inputs.iter().any(|pin| is_enable(pin) && is_connected(pin))
}

fn lists_eno(outputs: &[PinOut]) -> bool
    ensures { result ≡ list_any is_eno outputs.now }
{
    outputs.iter().any(|output| is_eno(output))
}

/// The outputs of a block, as they are listed.
#[tactic(auto, unfolding(plcx_rules::specs::Forms::block_outputs))]
fn block_outputs(
    alloc: Global,
    scope: &Scope,
    callee: Option<Callee>,
    outputs: &[PinOut],
) -> Result<Vec<Out>, NoMemory>
    ensures { IfOk result (λ outs. outs.items ≡ block_outputs scope.now callee outputs.now) }
{
    let count = result_count(outputs);
    let mut outs = Vec::new(alloc);
    for output in outputs {
        outs.push(Out {
            gives: output_gives(alloc, scope, callee, outputs, count, output)?,
            negated: output.mods.negated,
        })?;
    }
    Ok(outs)
}

impl Layout {
    /// One element more, with at most one input pin and at most one wire.
    fn put(&mut self, form: Form, pin: Option<Pin>, wire: Option<WireForm>) -> Result<(), NoMemory>
        ensures forms { OnOk result (self.new.forms.items ≡ self.old.forms.items ++ form ∷ []) }
        ensures pins { OnOk result (self.new.pins.items ≡ self.old.pins.items ++ option_to_list pin) }
        ensures wires { OnOk result (self.new.wires.items ≡ self.old.wires.items ++ option_to_list wire) }
    {
        self.forms.push(form)?;
        push_if(&mut self.pins, pin)?;
        push_wire_if(&mut self.wires, wire)?;
        Ok(())
    }

    /// The inputs of a block.
    fn put_inputs(
        &mut self,
        alloc: Global,
        scope: &Scope,
        callee: Option<Callee>,
        element: u32,
        inputs: &[PinIn],
    ) -> Result<(), NoMemory>
        ensures forms { OnOk result (self.new.forms ≡ self.old.forms) }
        ensures pins { OnOk result (self.new.pins.items ≡ self.old.pins.items ++ map (input_pin scope.now callee element inputs.now) inputs.now) }
        ensures wires { OnOk result (self.new.wires ≡ self.old.wires) }
    {
        let count = input_count(inputs);
        for one in inputs {
            let class = input_class(alloc, scope, callee, inputs, count, one)?;
            self.pins.push(pin(element, class, one.mods.negated))?;
        }
        Ok(())
    }

    /// The in-outs of a block.
    fn put_in_outs(
        &mut self,
        alloc: Global,
        scope: &Scope,
        callee: Option<Callee>,
        element: u32,
        in_outs: &[PinIn],
    ) -> Result<(), NoMemory>
        ensures forms { OnOk result (self.new.forms ≡ self.old.forms) }
        ensures pins { OnOk result (self.new.pins.items ≡ self.old.pins.items ++ map (in_out_pin scope.now callee element) in_outs.now) }
        ensures wires { OnOk result (self.new.wires ≡ self.old.wires) }
    {
        for one in in_outs {
            let class = in_out_class(alloc, scope, callee, one)?;
            self.pins.push(pin(element, class, one.mods.negated))?;
        }
        Ok(())
    }

    /// The wires of the outputs of a function block beside ENO.
    fn put_outputs(
        &mut self,
        alloc: Global,
        scope: &Scope,
        callee: Option<Callee>,
        element: u32,
        outputs: &[PinOut],
    ) -> Result<(), NoMemory>
        ensures forms { OnOk result (self.new.forms ≡ self.old.forms) }
        ensures pins { OnOk result (self.new.pins ≡ self.old.pins) }
        ensures wires { OnOk result (self.new.wires.items ≡ self.old.wires.items ++ map (output_wire scope.now callee element outputs.now) (filter (λ (o : PinOut). not (is_eno o)) outputs.now)) }
    {
        let count = result_count(outputs);
        for output in outputs {
            if !is_eno(output) {
                let gives = output_gives(alloc, scope, callee, outputs, count, output)?;
                self.wires.push(wire(element, gives))?;
            }
        }
        Ok(())
    }

    /// The wires of a block behind ENO.
    fn put_results(
        &mut self,
        alloc: Global,
        scope: &Scope,
        callee: Option<Callee>,
        element: u32,
        outputs: &[PinOut],
    ) -> Result<(), NoMemory>
        ensures forms { OnOk result (self.new.forms ≡ self.old.forms) }
        ensures pins { OnOk result (self.new.pins ≡ self.old.pins) }
        ensures wires { OnOk result (self.new.wires.items ≡ self.old.wires.items ++ result_wires scope.now callee element outputs.now) }
    {
        if let Some(Callee::Function(func)) = callee {
            self.wires
                .push(wire(element, gives_class(Some(output_class(func)))))?;
            return Ok(());
        }
        self.put_outputs(alloc, scope, callee, element, outputs)?;
        Ok(())
    }

    /// The wires of a block.
    #[tactic(auto, unfolding(plcx_rules::specs::Forms::block_wires))]
    fn put_wires(
        &mut self,
        alloc: Global,
        scope: &Scope,
        callee: Option<Callee>,
        element: u32,
        inputs: &[PinIn],
        outputs: &[PinOut],
    ) -> Result<(), NoMemory>
        ensures forms { OnOk result (self.new.forms ≡ self.old.forms) }
        ensures pins { OnOk result (self.new.pins ≡ self.old.pins) }
        ensures wires { OnOk result (self.new.wires.items ≡ self.old.wires.items ++ block_wires scope.now callee element inputs.now outputs.now) }
    {
        if has_enable(inputs) || lists_eno(outputs) {
            self.wires.push(wire(element, Gives::Typed(Ty::Bool)))?;
        }
        self.put_results(alloc, scope, callee, element, outputs)?;
        Ok(())
    }

    /// A block.
    #[tactic(auto, unfolding(plcx_rules::specs::Forms::block_pins))]
    fn put_block(
        &mut self,
        alloc: Global,
        scope: &Scope,
        callee: Option<Callee>,
        element: u32,
        inputs: &[PinIn],
        in_outs: &[PinIn],
        outputs: &[PinOut],
    ) -> Result<(), NoMemory>
        ensures forms { OnOk result (self.new.forms.items ≡ self.old.forms.items ++ block_form scope.now callee outputs.now ∷ []) }
        ensures pins { OnOk result (self.new.pins.items ≡ self.old.pins.items ++ block_pins scope.now callee element inputs.now in_outs.now) }
        ensures wires { OnOk result (self.new.wires.items ≡ self.old.wires.items ++ block_wires scope.now callee element inputs.now outputs.now) }
    {
        let outs = block_outputs(alloc, scope, callee, outputs)?;
        self.forms.push(Form {
            outputs: Outputs::Listed(Items::from_vec(outs)),
            grouping: grouping_of(callee),
            operand: None,
        })?;
        self.put_inputs(alloc, scope, callee, element, inputs)?;
        self.put_in_outs(alloc, scope, callee, element, in_outs)?;
        self.put_wires(alloc, scope, callee, element, inputs, outputs)?;
        Ok(())
    }

    /// A contact or a coil.
    fn put_operand(
        &mut self,
        alloc: Global,
        scope: &Scope,
        owner: &Owner,
        element: u32,
        text: &[u8],
    ) -> Result<(), NoMemory>
        ensures forms { OnOk result (self.new.forms.items ≡ self.old.forms.items ++ apart bool_out (declared (text_gives scope.now owner.now text.now)) ∷ []) }
        ensures pins { OnOk result (self.new.pins.items ≡ self.old.pins.items ++ pin element bool_class false ∷ []) }
        ensures wires { OnOk result (self.new.wires.items ≡ self.old.wires.items ++ bool_wire element ∷ []) }
    {
        let operand = declared_type(alloc, scope, owner, text)?;
        self.put(
            apart(bool_out(), operand),
            bool_pin(element),
            bool_wire(element),
        )?;
        Ok(())
    }

    /// An inVariable.
    fn put_value(
        &mut self,
        alloc: Global,
        scope: &Scope,
        owner: &Owner,
        element: u32,
        text: &[u8],
        negated: bool,
    ) -> Result<(), NoMemory>
        ensures forms { OnOk result (self.new.forms.items ≡ self.old.forms.items ++ value_form (text_gives scope.now owner.now text.now) negated ∷ []) }
        ensures pins { OnOk result (self.new.pins ≡ self.old.pins) }
        ensures wires { OnOk result (self.new.wires.items ≡ self.old.wires.items ++ value_wires element (text_held scope.now owner.now text.now)) }
    {
        let (gives, wire) = value_of(alloc, scope, owner, element, text)?;
        self.forms.push(value_form(gives, negated))?;
        push_wire_if(&mut self.wires, wire)?;
        Ok(())
    }

    /// An outVariable.
    fn put_target(
        &mut self,
        alloc: Global,
        scope: &Scope,
        owner: &Owner,
        element: u32,
        text: &[u8],
        mods: Mods,
    ) -> Result<(), NoMemory>
        ensures forms { OnOk result (self.new.forms.items ≡ self.old.forms.items ++ apart Absent None ∷ []) }
        ensures pins { OnOk result (self.new.pins.items ≡ self.old.pins.items ++ pin element (option_map Fixed (declared (text_gives scope.now owner.now text.now))) (is_modified mods) ∷ []) }
        ensures wires { OnOk result (self.new.wires ≡ self.old.wires) }
    {
        let class = fixed(declared_type(alloc, scope, owner, text)?);
        self.forms.push(apart(Outputs::Absent, None))?;
        self.pins.push(pin(element, class, is_modified(mods)))?;
        Ok(())
    }

    /// An element without a text, which is no block.
    #[tactic(auto, unfolding(plcx_rules::specs::Forms::form_of, plcx_rules::specs::Forms::element_pins, plcx_rules::specs::Forms::element_wires))]
    fn put_plain(&mut self, element: u32, kind: &Kind) -> Result<(), NoMemory>
        requires { is_plain kind.now ≡ true }
        ensures forms { OnOk result ((pous : List Pou) (p : Pou) → self.new.forms.items ≡ self.old.forms.items ++ form_of pous p kind.now ∷ []) }
        ensures pins { OnOk result ((pous : List Pou) (p : Pou) → self.new.pins.items ≡ self.old.pins.items ++ element_pins pous p element kind.now) }
        ensures wires { OnOk result ((pous : List Pou) (p : Pou) → self.new.wires.items ≡ self.old.wires.items ++ element_wires pous p element kind.now) }
    {
        match kind {
            Kind::LeftRail => self.put(apart(bool_out(), None), None, None)?,
            Kind::RightRail { .. } => {
                self.put(apart(Outputs::Absent, None), bool_pin(element), None)?
            }
            Kind::Connector { .. } | Kind::Continuation { .. } => self.put(
                passing(),
                group_pin(element),
                Some(wire(element, Gives::Grouped)),
            )?,
            Kind::Jump { .. } | Kind::Return { .. } => self.put(
                apart(Outputs::Absent, None),
                bool_pin(element),
                bool_wire(element),
            )?,
            _ => self.put(apart(Outputs::Absent, None), None, None)?,
        }
        Ok(())
    }

    /// One element more.
    #[tactic(auto, unfolding(plcx_rules::specs::Forms::form_of, plcx_rules::specs::Forms::element_pins, plcx_rules::specs::Forms::element_wires))]
    fn put_element(
        &mut self,
        alloc: Global,
        scope: &Scope,
        owner: &Owner,
        element: u32,
        kind: &Kind,
    ) -> Result<(), NoMemory>
        ensures forms { OnOk result (self.new.forms.items ≡ self.old.forms.items ++ form_of scope.now owner.now kind.now ∷ []) }
        ensures pins { OnOk result (self.new.pins.items ≡ self.old.pins.items ++ element_pins scope.now owner.now element kind.now) }
        ensures wires { OnOk result (self.new.wires.items ≡ self.old.wires.items ++ element_wires scope.now owner.now element kind.now) }
    {
        match kind {
            Kind::Contact { text, .. } | Kind::Coil { text, .. } => {
                self.put_operand(alloc, scope, owner, element, text.as_slice())?
            }
            Kind::In { text, mods } => {
                self.put_value(alloc, scope, owner, element, text.as_slice(), mods.negated)?
            }
            Kind::Out { text, mods, .. } => {
                self.put_target(alloc, scope, owner, element, text.as_slice(), *mods)?
            }
            Kind::Block {
                type_name,
                inputs,
                in_outs,
                outputs,
                ..
            } => {
                let callee = scope.callee(alloc, type_name.as_slice())?;
                self.put_block(
                    alloc,
                    scope,
                    callee,
                    element,
                    inputs.as_slice(),
                    in_outs.as_slice(),
                    outputs.as_slice(),
                )?
            }
            _ => self.put_plain(element, kind)?,
        }
        Ok(())
    }
}

/// What the types of a body go by.
pub(crate) fn layout_of(
    alloc: Global,
    scope: &Scope,
    owner: &Owner,
    elements: &[BodyElement],
) -> Result<Layout, NoMemory>
    requires few { length elements.now < 2 ^ 32 }
    ensures forms { IfOk result (λ l. l.forms.items ≡ map (λ x. form_of scope.now owner.now x.kind) elements.now) }
    ensures pins { IfOk result (λ l. l.pins.items ≡ pins_from scope.now owner.now 0 elements.now) }
    ensures wires { IfOk result (λ l. l.wires.items ≡ wires_from scope.now owner.now 0 elements.now) }
{
    let mut layout = Layout {
        forms: Vec::new(alloc),
        pins: Vec::new(alloc),
        wires: Vec::new(alloc),
    };
    for element in 0..elements.len() {
        layout.put_element(alloc, scope, owner, element as u32, &elements[element].kind)?;
    }
    Ok(layout)
}

fn push_if(pins: &mut Vec<Pin>, pin: Option<Pin>) -> Result<(), NoMemory>
    ensures { OnOk result (pins.new.items ≡ pins.old.items ++ option_to_list pin) }
{
    if let Some(pin) = pin {
        pins.push(pin)?;
    }
    Ok(())
}

fn push_wire_if(wires: &mut Vec<WireForm>, wire: Option<WireForm>) -> Result<(), NoMemory>
    ensures { OnOk result (wires.new.items ≡ wires.old.items ++ option_to_list wire) }
{
    if let Some(wire) = wire {
        wires.push(wire)?;
    }
    Ok(())
}
