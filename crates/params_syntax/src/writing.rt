//! The canonical text of a tree.
ghost use Rattle.std.specs.Prelude.{◌≡◌, ◌++◌, IfOk, OnOk};
ghost use Rattle.std.specs.List.{flat_map};
ghost use Rattle.params_syntax.specs.Canonical.{
  atom_text,
  elements_text,
  value_text,
  setting_text,
  sub_setting_text,
  item_text,
  group_text,
  canonical_text,
};

use crate::tree::{Atom, Group, Item, Setting, Tree, Value};
use cello_num::Memory;
use std::alloc::Global;
use text_line::Line;

/// The canonical text of a tree.
pub fn write(alloc: Global, tree: &Tree) -> Result<Vec<u8>, Memory>
    ensures text { IfOk result (λ bytes. bytes.items ≡ canonical_text tree.now) }
{
    let mut text = Vec::new(alloc);
    for group in tree.items() {
        push_group(&mut text, group)?;
    }
    Ok(text)
}

fn push_group(text: &mut Vec<u8>, group: &Group) -> Result<(), Memory>
    ensures text { OnOk result (text.new.items ≡ text.old.items ++ group_text group.now) }
{
    text.extend_from_slice(group.name.bytes())?;
    text.extend_from_slice(b" {\n")?;
    push_items(text, group.items.items())?;
    text.extend_from_slice(b"}\n")?;
    Ok(())
}

fn push_items(text: &mut Vec<u8>, items: &[Item]) -> Result<(), Memory>
    ensures text { OnOk result (text.new.items ≡ text.old.items ++ flat_map item_text items.now) }
{
    for item in items {
        push_item(text, item)?;
    }
    Ok(())
}

fn push_item(text: &mut Vec<u8>, item: &Item) -> Result<(), Memory>
    ensures text { OnOk result (text.new.items ≡ text.old.items ++ item_text item.now) }
{
    text.extend_from_slice(b"  ")?;
    match item {
        Item::Set(setting) => push_setting(text, setting)?,
        Item::Sub { name, sets } => {
            text.extend_from_slice(name.bytes())?;
            text.extend_from_slice(b" {\n")?;
            push_settings(text, sets.items())?;
            text.extend_from_slice(b"  }\n")?;
        }
    }
    Ok(())
}

fn push_settings(text: &mut Vec<u8>, sets: &[Setting]) -> Result<(), Memory>
    ensures text { OnOk result (text.new.items ≡ text.old.items ++ flat_map sub_setting_text sets.now) }
{
    for setting in sets {
        text.extend_from_slice(b"    ")?;
        push_setting(text, setting)?;
    }
    Ok(())
}

fn push_setting(text: &mut Vec<u8>, setting: &Setting) -> Result<(), Memory>
    ensures text { OnOk result (text.new.items ≡ text.old.items ++ setting_text setting.now) }
{
    text.extend_from_slice(setting.name.bytes())?;
    text.extend_from_slice(b" = ")?;
    push_value(text, &setting.value)?;
    text.extend_from_slice(b";\n")?;
    Ok(())
}

fn push_value(text: &mut Vec<u8>, value: &Value) -> Result<(), Memory>
    ensures text { OnOk result (text.new.items ≡ text.old.items ++ value_text value.now) }
{
    match value {
        Value::Atom(atom) => text.extend_from_slice(atom_line(*atom).bytes())?,
        Value::List(atoms) => {
            text.extend_from_slice(b"[")?;
            push_elements(text, atoms.items())?;
            text.extend_from_slice(b"]")?;
        }
    }
    Ok(())
}

fn push_elements(text: &mut Vec<u8>, atoms: &[Atom]) -> Result<(), Memory>
    ensures text { OnOk result (text.new.items ≡ text.old.items ++ elements_text atoms.now) }
{
    for (i, atom) in atoms.iter().enumerate() {
        if i > 0 {
            text.extend_from_slice(b", ")?;
        }
        text.extend_from_slice(atom_line(*atom).bytes())?;
    }
    Ok(())
}

/// A number or a word.
fn atom_line(atom: Atom) -> Line
    ensures text { result ≡ atom_text atom }
{
    let mut line = Line::new();
    match atom {
        Atom::Number(number) => line.push_number(number),
        Atom::Word(word) => {
            line.push(b"\"");
            line.push(word.bytes());
            line.push(b"\"");
        }
    }
    line
}
