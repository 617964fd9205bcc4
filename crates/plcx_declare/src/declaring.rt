//! The declarations of a POU: its lists, what its elements remember, and its temporaries.
ghost use Rattle.std.specs.Prelude.{◌≡◌, [], ◌++◌, IfOk, OnOk, map, true};
ghost use Rattle.std.specs.List.{flat_map};
ghost use Rattle.std.specs.Option.{option_map};
ghost use Rattle.plcx_types.specs.Lists.{Each};
ghost use Rattle.plcx_meaning.specs.Tree.{Local, Temp, Plain};
ghost use Rattle.plcx_meaning.specs.Templates.{own, block, list_text, element_memories, element_wires};
ghost use Rattle.plcx_view.specs.Declared.{spelled_type, declaration_of, class_of, mark_by, list_of, lists_of};
ghost use Rattle.plcx_drawn.specs.Shown.{shown_element, shown_port};
ghost use Rattle.plcx_declare.specs.Named.{IsNamed, BlockIsNamed};
ghost use Rattle.plcx_st.specs.Meant.{number_meant, decl_meant, block_meant, class_meant, mark_meant};

use plcx_drawn::{Element, Port, has_edge, ports};
use plcx_lower::{counter_word, edge_word, fed_word, wire_word, word_like, word_named};
use plcx_model::{ListClass, Pou, VarList, VarTy, Variable};
use plcx_st::{Decl, Mark, Number, TextBlock, TextClass, Word};
use plcx_types::{NoMemory, Span, Ty, Val};
use sqlite_items::Items;
use std::alloc::Global;

/// The spelling of a type: that of a function block stands in its POU.
fn spelled_type(pous: &[Pou], ty: VarTy) -> &[u8]
    ensures { result.now ≡ spelled_type pous.now ty }
{
    match ty {
        VarTy::Plain(ty) => ty.name().as_bytes(),
        VarTy::Std(kind) => kind.name().as_bytes(),
        VarTy::Block(place) => match pous.get(place as usize) {
            Some(pou) => pou.name.text(),
            None => b"",
        },
    }
}

/// An initial value as a literal.
fn number_of(value: Val) -> Number
    ensures { number_meant result ≡ value }
{
    Number {
        ty: value.ty(),
        n: value.n(),
        span: Span { start: 0, end: 0 },
    }
}

fn address_of(alloc: Global, address: &Option<Items<u8>>) -> Result<Option<Items<u8>>, NoMemory>
    ensures { IfOk result (λ copy. copy ≡ address.now) }
{
    match address {
        Some(bytes) => Ok(Some(Items::from_slice(alloc, bytes.as_slice())?)),
        None => Ok(None),
    }
}

fn variable_decl(alloc: Global, pous: &[Pou], variable: &Variable) -> Result<Decl, NoMemory>
    requires { IsNamed (declaration_of pous.now variable.now) }
    ensures { IfOk result (λ decl. decl_meant decl ≡ declaration_of pous.now variable.now) }
{
    Ok(Decl {
        name: word_like(alloc, &variable.name)?,
        address: address_of(alloc, &variable.address)?,
        ty: word_named(alloc, spelled_type(pous, variable.ty))?,
        initial: variable.initial.map(number_of),
    })
}

fn variable_decls(
    alloc: Global,
    pous: &[Pou],
    variables: &[Variable],
) -> Result<Vec<Decl>, NoMemory>
    requires { Each IsNamed (map (declaration_of pous.now) variables.now) }
    ensures { IfOk result (λ decls. map decl_meant decls.items ≡ map (declaration_of pous.now) variables.now) }
{
    let mut decls = Vec::new(alloc);
    for variable in variables {
        decls.push(variable_decl(alloc, pous, variable)?)?;
    }
    Ok(decls)
}

fn class_of(class: ListClass) -> TextClass
    ensures { class_meant result ≡ class_of class }
{
    match class {
        ListClass::Local => TextClass::Var,
        ListClass::Input => TextClass::Input,
        ListClass::Output => TextClass::Output,
        ListClass::InOut => TextClass::InOut,
    }
}

/// A list that is both is constant.
fn mark_of(list: &VarList) -> Mark
    ensures { mark_meant result ≡ mark_by list.now.constant list.now.retain }
{
    if list.constant {
        Mark::Constant
    } else if list.retain {
        Mark::Retain
    } else {
        Mark::Plain
    }
}

/// Puts a block at the end, unless it would be empty.
fn put_block(
    blocks: &mut Vec<TextBlock>,
    class: TextClass,
    mark: Mark,
    decls: Vec<Decl>,
) -> Result<(), NoMemory>
    ensures { OnOk result (map block_meant blocks.new.items ≡ map block_meant blocks.old.items ++ block (class_meant class) (mark_meant mark) (map decl_meant decls.items)) }
{
    if decls.is_empty() {
        return Ok(());
    }
    blocks.push(TextBlock {
        class,
        mark,
        decls: Items::from_vec(decls),
    })?;
    Ok(())
}

fn put_list(
    alloc: Global,
    pous: &[Pou],
    blocks: &mut Vec<TextBlock>,
    list: &VarList,
) -> Result<(), NoMemory>
    requires { Each BlockIsNamed (list_text (list_of pous.now list.now)) }
    ensures { OnOk result (map block_meant blocks.new.items ≡ map block_meant blocks.old.items ++ list_text (list_of pous.now list.now)) }
{
    let decls = variable_decls(alloc, pous, list.variables())?;
    put_block(blocks, class_of(list.class), mark_of(list), decls)
}

/// The lists of a POU, of which an empty one has no block.
fn list_blocks(alloc: Global, pous: &[Pou], pou: &Pou) -> Result<Vec<TextBlock>, NoMemory>
    requires { Each BlockIsNamed (flat_map list_text (lists_of pous.now pou.now)) }
    ensures { IfOk result (λ blocks. map block_meant blocks.items ≡ flat_map list_text (lists_of pous.now pou.now)) }
{
    let mut blocks = Vec::new(alloc);
    for list in pou.lists() {
        put_list(alloc, pous, &mut blocks, list)?;
    }
    Ok(blocks)
}

/// A variable of the compiler's own.
fn own_decl(alloc: Global, name: Word, ty: Ty) -> Result<Decl, NoMemory>
    ensures { IfOk result (λ decl. decl_meant decl ≡ own name.name ty) }
{
    Ok(Decl {
        name,
        address: None,
        ty: word_named(alloc, ty.name().as_bytes())?,
        initial: None,
    })
}

/// What an element remembers at its edge, if it has one.
fn put_edge(alloc: Global, decls: &mut Vec<Decl>, element: &Element) -> Result<(), NoMemory>
    requires { Each IsNamed (edge_memories (shown_element element.now)) }
    ensures { OnOk result (map decl_meant decls.new.items ≡ map decl_meant decls.old.items ++ edge_memories (shown_element element.now)) }
{
    if has_edge(&element.kind) {
        decls.push(own_decl(alloc, edge_word(alloc, element.id)?, Ty::Bool)?)?;
    }
    Ok(())
}

/// The variable of an output that feeds back.
fn fed_decl(alloc: Global, id: u64, port: &Port) -> Result<Decl, NoMemory>
    requires { IsNamed (fed_memory id (shown_port port.now)) }
    ensures { IfOk result (λ decl. decl_meant decl ≡ fed_memory id (shown_port port.now)) }
{
    own_decl(alloc, fed_word(alloc, id, port.pin)?, port.ty)
}

ghost use Rattle.plcx_declare.specs.Texts.{edge_memories, fed_memory, wire_of, temporaries, blocks_of};

/// What feeds back of an element.
fn put_fed(alloc: Global, decls: &mut Vec<Decl>, id: u64, fed: &[Port]) -> Result<(), NoMemory>
    requires { Each IsNamed (map (fed_memory id) (map shown_port fed.now)) }
    ensures { OnOk result (map decl_meant decls.new.items ≡ map decl_meant decls.old.items ++ map (fed_memory id) (map shown_port fed.now)) }
{
    for port in fed {
        decls.push(fed_decl(alloc, id, port)?)?;
    }
    Ok(())
}

/// What an element remembers: its edge, then what feeds back.
fn put_memories(alloc: Global, decls: &mut Vec<Decl>, element: &Element) -> Result<(), NoMemory>
    requires { Each IsNamed (element_memories (shown_element element.now)) }
    ensures { OnOk result (map decl_meant decls.new.items ≡ map decl_meant decls.old.items ++ element_memories (shown_element element.now)) }
{
    put_edge(alloc, decls, element)?;
    put_fed(alloc, decls, element.id, element.fed.as_slice())
}

fn memory_decls(alloc: Global, elements: &[Element]) -> Result<Vec<Decl>, NoMemory>
    requires { Each IsNamed (flat_map element_memories (map shown_element elements.now)) }
    ensures { IfOk result (λ decls. map decl_meant decls.items ≡ flat_map element_memories (map shown_element elements.now)) }
{
    let mut decls = Vec::new(alloc);
    for element in elements {
        put_memories(alloc, &mut decls, element)?;
    }
    Ok(decls)
}

/// The temporary of a wire.
fn wire_decl(alloc: Global, id: u64, port: &Port) -> Result<Decl, NoMemory>
    requires { IsNamed (wire_of id (shown_port port.now)) }
    ensures { IfOk result (λ decl. decl_meant decl ≡ wire_of id (shown_port port.now)) }
{
    own_decl(alloc, wire_word(alloc, id, port.pin)?, port.ty)
}

/// These wires of an element.
fn put_ports(alloc: Global, decls: &mut Vec<Decl>, id: u64, wires: &[Port]) -> Result<(), NoMemory>
    requires { Each IsNamed (map (wire_of id) (map shown_port wires.now)) }
    ensures { OnOk result (map decl_meant decls.new.items ≡ map decl_meant decls.old.items ++ map (wire_of id) (map shown_port wires.now)) }
{
    for port in wires {
        decls.push(wire_decl(alloc, id, port)?)?;
    }
    Ok(())
}

/// The wires of an element.
fn put_wires(alloc: Global, decls: &mut Vec<Decl>, element: &Element) -> Result<(), NoMemory>
    requires { Each IsNamed (element_wires (shown_element element.now)) }
    ensures { OnOk result (map decl_meant decls.new.items ≡ map decl_meant decls.old.items ++ element_wires (shown_element element.now)) }
{
    let wires = ports(alloc, &element.kind)?;
    put_ports(alloc, decls, element.id, wires.as_slice())
}

fn wire_decls(alloc: Global, elements: &[Element]) -> Result<Vec<Decl>, NoMemory>
    requires { Each IsNamed (flat_map element_wires (map shown_element elements.now)) }
    ensures { IfOk result (λ decls. map decl_meant decls.items ≡ flat_map element_wires (map shown_element elements.now)) }
{
    let mut decls = Vec::new(alloc);
    for element in elements {
        put_wires(alloc, &mut decls, element)?;
    }
    Ok(decls)
}

/// The wires of all elements, and behind them the counter of a body that jumps.
fn temporary_decls(alloc: Global, elements: &[Element], jumps: bool) -> Result<Vec<Decl>, NoMemory>
    requires { Each IsNamed (flat_map element_wires (map shown_element elements.now)) }
    ensures { IfOk result (λ decls. map decl_meant decls.items ≡ temporaries jumps (map shown_element elements.now)) }
{
    let mut decls = wire_decls(alloc, elements)?;
    if jumps {
        decls.push(own_decl(alloc, counter_word(alloc)?, Ty::Dint)?)?;
    }
    Ok(decls)
}

/// All blocks of a POU: its lists, its memories, and its temporaries.
pub fn blocks(
    alloc: Global,
    pous: &[Pou],
    pou: &Pou,
    elements: &[Element],
    jumps: bool,
) -> Result<Vec<TextBlock>, NoMemory>
    requires { Each BlockIsNamed (blocks_of (lists_of pous.now pou.now) (map shown_element elements.now) jumps) }
    ensures { IfOk result (λ blocks. map block_meant blocks.items ≡ blocks_of (lists_of pous.now pou.now) (map shown_element elements.now) jumps) }
{
    let mut blocks = list_blocks(alloc, pous, pou)?;
    let memories = memory_decls(alloc, elements)?;
    put_block(&mut blocks, TextClass::Var, Mark::Plain, memories)?;
    let temporaries = temporary_decls(alloc, elements, jumps)?;
    put_block(&mut blocks, TextClass::Temp, Mark::Plain, temporaries)?;
    Ok(blocks)
}
