// Which atoms are facts, and keys by which two of them are told apart.
ghost use Rattle.std.specs.Prelude.{◌≡◌, ◌++◌, IfOk, OnOk};
ghost use Rattle.cep_source.specs.Starts.{is_of_fact};
ghost use Rattle.cep_faults.specs.FactKeys.{name_key, count_key, atom_key};

use cep_base::Text;
use cep_parse::RawAtom;
use cep_source::Source;
use std::alloc::AllocError;

// Whether the predicate of an atom is declared as one of facts.
pub(crate) fn is_of_fact(source: &Source, atom: &RawAtom) -> bool
    ensures { result ≡ is_of_fact source.now atom.now }
{
    match source.kind(atom.name) {
        Some(kind) => kind.is_of_facts(),
        None => false,
    }
}

// Adds the key of a name: each byte after a mark, and a stop.
fn put_name(name: &[u8], key: &mut Text) -> Result<(), AllocError>
    ensures { OnOk result (key.new ≡ key.old ++ name_key name.now) }
{
    for byte in name {
        key.append(&[b'+', *byte])?;
    }
    key.append(b".")
}

// Adds the key of a number of arguments: as many marks, and a stop.
fn put_count(count: u32, key: &mut Text) -> Result<(), AllocError>
    ensures { OnOk result (key.new ≡ key.old ++ count_key count) }
{
    for _mark in 0..count {
        key.append(b"+")?;
    }
    key.append(b".")
}

// The key of an atom, which it shares with those that are written alike, and with no others.
pub(crate) fn key_of(source: &Source, atom: &RawAtom) -> Result<Text, AllocError>
    ensures { IfOk result (λ key. key ≡ atom_key source.now atom.now) }
{
    let mut key = Text::new(source.alloc());
    put_name(source.said(atom.name), &mut key)?;
    put_count(atom.args, &mut key)?;
    for node in atom.nodes.as_slice() {
        put_name(source.said(node.at), &mut key)?;
        put_count(node.args, &mut key)?;
    }
    Ok(key)
}
