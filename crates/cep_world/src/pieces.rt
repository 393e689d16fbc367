// The parts of the text that are written for each number.
ghost use Rattle.std.specs.Prelude.{◌≡◌, ◌+◌, ◌*◌, ◌%◌, ◌<◌, ◌≤◌, ◌++◌, map, codes, decimal, OnOk};
ghost use Rattle.std.specs.List.{flat_map};
ghost use Rattle.cep_world.specs.World.{numbers_below, numbered_names, atom_with_room, room_atoms, walker_atoms, good_atom};
ghost use Rattle.cep_world.specs.Pieces.{with_commas};

use cep_base::Text;
use cep_base::limits::MOST_WORLD;
use std::alloc::AllocError;

// The line of one name, as `r0 : room.`.
#[tactic(auto, using(std::proofs::Common::append_assoc))]
fn put_name(out: &mut Text, letter: &[u8], sort: &[u8], i: u32) -> Result<(), AllocError>
    ensures { OnOk result (out.new
        ≡ out.old ++ (letter.now ++ decimal i ++ codes " : " ++ sort.now ++ codes ".\n")) }
{
    out.append(letter)?;
    out.number(u64::from(i))?;
    out.append(b" : ")?;
    out.append(sort)?;
    out.append(b".\n")
}

// The lines of so many names.
pub fn put_names(out: &mut Text, letter: &[u8], sort: &[u8], count: u32) -> Result<(), AllocError>
    ensures { OnOk result (out.new ≡ out.old ++ numbered_names letter.now sort.now count) }
{
    for i in 0..count {
        put_name(out, letter, sort, i)?;
    }
    Ok(())
}

// An atom, as `at w0 r7`.
#[tactic(auto, using(std::proofs::Common::append_assoc))]
pub fn put_atom(out: &mut Text, front: &[u8], i: u32, room: u32) -> Result<(), AllocError>
    ensures { OnOk result (out.new ≡ out.old ++ atom_with_room front.now i room) }
{
    out.append(front)?;
    out.number(u64::from(i))?;
    out.append(b" r")?;
    out.number(u64::from(room))
}

// An atom that others follow.
#[tactic(auto, using(std::proofs::Common::append_assoc))]
fn put_atom_before_others(out: &mut Text, front: &[u8], i: u32, room: u32) -> Result<(), AllocError>
    ensures { OnOk result (out.new ≡ out.old ++ (atom_with_room front.now i room ++ codes ",\n")) }
{
    put_atom(out, front, i, room)?;
    out.append(b",\n")
}

// The links of a room.
#[tactic(auto, using(std::proofs::Common::append_assoc))]
fn put_room(out: &mut Text, n: u32, i: u32) -> Result<(), AllocError>
    requires within { i < n }
    requires few { n ≤ MOST_WORLD }
    ensures { OnOk result (out.new ≡ out.old ++ with_commas (room_atoms n i)) }
{
    put_atom_before_others(out, b"link r", i, (i + 1) % n)?;
    put_atom_before_others(out, b"link r", i, (7 * i + 3) % n)
}

// The links of all rooms.
pub fn put_rooms(out: &mut Text, n: u32) -> Result<(), AllocError>
    requires { n ≤ MOST_WORLD }
    ensures { OnOk result (out.new
        ≡ out.old ++ with_commas (flat_map (room_atoms n) (numbers_below n))) }
{
    for i in 0..n {
        put_room(out, n, i)?;
    }
    Ok(())
}

// The food of a walker, once.
#[tactic(auto, using(std::proofs::Common::append_assoc))]
fn put_food(out: &mut Text, i: u32) -> Result<(), AllocError>
    ensures { OnOk result (out.new ≡ out.old ++ (codes "food w" ++ decimal i ++ codes ",\n")) }
{
    out.append(b"food w")?;
    out.number(u64::from(i))?;
    out.append(b",\n")
}

// Where a walker is, and its food.
#[tactic(auto, using(std::proofs::Common::append_assoc))]
fn put_walker(out: &mut Text, n: u32, i: u32) -> Result<(), AllocError>
    requires some { 1 ≤ n }
    requires few { i < MOST_WORLD }
    ensures { OnOk result (out.new ≡ out.old ++ with_commas (walker_atoms n i)) }
{
    put_atom_before_others(out, b"at w", i, 11 * i % n)?;
    put_food(out, i)?;
    put_food(out, i)?;
    put_food(out, i)
}

// So many walkers.
pub fn put_walkers(out: &mut Text, n: u32, count: u32) -> Result<(), AllocError>
    requires some { 1 ≤ n }
    requires few { count ≤ MOST_WORLD }
    ensures { OnOk result (out.new
        ≡ out.old ++ with_commas (flat_map (walker_atoms n) (numbers_below count))) }
{
    for i in 0..count {
        put_walker(out, n, i)?;
    }
    Ok(())
}

// Where so many goods lie, all of which others follow.
pub fn put_goods(out: &mut Text, n: u32, count: u32) -> Result<(), AllocError>
    requires some { 1 ≤ n }
    requires few { count ≤ MOST_WORLD }
    ensures { OnOk result (out.new
        ≡ out.old ++ with_commas (map (good_atom n) (numbers_below count))) }
{
    for i in 0..count {
        put_atom_before_others(out, b"lies g", i, 5 * i % n)?;
    }
    Ok(())
}
