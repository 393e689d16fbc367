// The rows of a column of arity 1.
ghost use Rattle.std.specs.Prelude.{◌≡◌, ◌+◌, ◌-◌, ◌^◌, ◌<◌, ◌≤◌, ℕ, length, IfOk, OnOk};
ghost use Rattle.cep_column.specs.Rows.{live_count, IsLive, IsInNoRow};

use cep_column::Column;
use std::alloc::{AllocError, Global};
use std::test::Fail;

// How many ones there are in the words of a mask.
fn ones(mask: &[u64]) -> u32 {
    mask.iter().fold(0, |count: u32, word| count.wrapping_add(word.count_ones()))
}

// How many rows are live, and how many of these hold 7, and 3.
fn counts(alloc: Global, column: &Column) -> Result<[u32; 3], AllocError>
    requires { column.now.arity ≡ 1 }
{
    let mut mask = vec![in alloc; u64::MAX; column.words()]?;
    column.live(&mut mask);
    let live = ones(&mask);
    column.rows_with(0, 7, &mut mask);
    let sevens = ones(&mask);
    column.rows_with(0, 3, &mut mask);
    Ok([live, sevens, ones(&mask)])
}

// The atom of the last of three rows, and what is counted before it is removed and after.
fn without_last(alloc: Global) -> Result<(u64, [[u32; 3]; 2]), AllocError> {
    let mut column = Column::new(alloc, 1)?;
    column.add(0, &[7])?;
    column.add(1, &[3])?;
    let last = column.add(2, &[7])?;
    let atom = column.atom_at(last);
    let before = counts(alloc, &column)?;
    column.remove(last);
    Ok((atom, [before, counts(alloc, &column)?]))
}

#[test]
fn a_row_is_found_by_its_argument_until_it_is_removed(rt: HostRuntime) -> Result<(), Fail> {
    let (atom, counts) = without_last(rt.alloc())?;
    assert!(rt; atom == 2 && counts == [[3, 2, 1], [2, 1, 1]]);
    Ok(())
}

#[test]
fn a_dead_row_is_used_again(rt: HostRuntime) -> Result<(), Fail> {
    let mut column = Column::new(rt.alloc(), 1)?;
    let row = column.add(0, &[7])?;
    column.remove(row);
    assert!(rt; column.add(1, &[3])? == row);
    Ok(())
}

// The keys below 50 in turn, 60 times.
fn keys_in_turn(alloc: Global) -> Result<Vec<u64>, AllocError>
    ensures { IfOk result (λ keys. length keys.items ≡ 3000) }
{
    let mut keys = vec![in alloc; 0; 3000]?;
    for (i, key) in keys.iter_mut().enumerate() {
        *key = i as u64 % 50;
    }
    Ok(keys)
}

// Adds an atom with each of these keys, numbered from the first one on.
fn add_all(column: &mut Column, first: u64, keys: &[u64]) -> Result<(), AllocError>
    requires arity { column.old.arity ≡ 1 }
    requires fresh { (atom : ℕ) → first ≤ atom → IsInNoRow column.old atom }
    requires few { live_count column.old + length keys.now < 2 ^ 32 - 1 }
    requires numbers { first + length keys.now < 2 ^ 64 }
    ensures arity { OnOk result (column.new.arity ≡ 1) }
    ensures fresh { OnOk result ((atom : ℕ) → first + length keys.now ≤ atom
        → IsInNoRow column.new atom) }
    ensures many { OnOk result (live_count column.new
        ≡ live_count column.old + length keys.now) }
    ensures stays { OnOk result ((row : ℕ) → IsLive column.old row → IsLive column.new row) }
{
    for (i, key) in keys.iter().enumerate() {
        column.add(first + i as u64, &[*key])?;
    }
    Ok(())
}

// Removes a row, after which no atom is in a row that was in none.
fn remove(column: &mut Column, row: u32)
    requires { IsLive column.old row }
    ensures arity { column.new.arity ≡ column.old.arity }
    ensures fresh { (atom : ℕ) → IsInNoRow column.old atom → IsInNoRow column.new atom }
    ensures one_less { live_count column.old ≡ live_count column.new + 1 }
{
    column.remove(row);
}

// Adds an atom with each of these keys in turn, and removes it again.
fn add_in_turn(column: &mut Column, atom: u64, keys: &[u64]) -> Result<(), AllocError>
    requires arity { column.old.arity ≡ 1 }
    requires fresh { IsInNoRow column.old atom }
    requires few { live_count column.old < 2 ^ 32 - 1 }
    ensures arity { OnOk result (column.new.arity ≡ 1) }
    ensures fresh { OnOk result (IsInNoRow column.new atom) }
    ensures many { OnOk result (live_count column.new ≡ live_count column.old) }
{
    for key in keys {
        let row = column.add(atom, &[*key])?;
        column.remove(row);
    }
    Ok(())
}

// What is counted of atoms with these keys, and one more, and what after that one is gone and others came and went.
fn replaced(alloc: Global, keys: &[u64]) -> Result<[[u32; 3]; 2], AllocError>
    requires { length keys.now ≡ 3000 }
{
    let mut column = Column::new(alloc, 1)?;
    let first = column.add(0, &[7])?;
    add_all(&mut column, 1, keys)?;
    let before = counts(alloc, &column)?;
    remove(&mut column, first);
    add_in_turn(&mut column, 3001, keys)?;
    add_in_turn(&mut column, 3001, &[3, 4099])?;
    Ok([before, counts(alloc, &column)?])
}

// Keys that are met again after 50 rows, in more rows than are looked through one by one.
#[test]
fn rows_are_found_by_an_index_while_keys_are_replaced(rt: HostRuntime) -> Result<(), Fail> {
    let keys = keys_in_turn(rt.alloc())?;
    let counts = replaced(rt.alloc(), &keys)?;
    assert!(rt; counts == [[3001, 61, 60], [3000, 60, 60]]);
    Ok(())
}
