// Masks of columns, and the places of a mask.
ghost use Rattle.std.specs.Prelude.{◌≤◌};

use cep_column::{and_mask, equal_mask, exclude, include, next_set};
use std::alloc::{AllocError, Global};
use std::process::Abort;
use std::test::Fail;

// Lengths of columns, the places of each that hold the key, and the words of their mask in base 16.
fn masks() -> &'static str {
    "\
0||
1||0
1|0|1
63|0 62|4000000000000001
63||0
64|0 1 63|8000000000000003
64|62|4000000000000000
65|63|8000000000000000 0
65|0 63 64|8000000000000001 1
200||0 0 0 0
200|0 64 127 128 199|1 8000000000000001 1 80
200|1 66 131 192 196|2 4 8 11"
}

// The numbers of a text, in this base.
fn numbers(alloc: Global, text: &str, radix: u32) -> Result<Vec<u64>, Fail>
    requires low { 2 ≤ radix }
    requires high { radix ≤ 36 }
{
    let mut numbers = Vec::new(alloc);
    for word in text.split_whitespace() {
        numbers.push(u64::from_str_radix(word, radix).ok().ok_or("no number")?)?;
    }
    Ok(numbers)
}

// Puts the key at these places of a column.
fn set_keys(column: &mut [u64], places: &[u64]) -> Result<(), Fail> {
    for place in places {
        match column.get_mut(*place as usize) {
            Some(value) => *value = 7,
            None => return Err(Fail::from("no place")),
        }
    }
    Ok(())
}

// A column of this length that holds the key at these places alone.
fn column(alloc: Global, length: usize, places: &str) -> Result<Vec<u64>, Fail> {
    let mut column = vec![in alloc; 3; length]?;
    let places = numbers(alloc, places, 10)?;
    set_keys(&mut column, &places)?;
    Ok(column)
}

// The mask of the places of the key, written over ones.
fn mask_of(alloc: Global, column: &[u64]) -> Result<Vec<u64>, AllocError> {
    let mut mask = vec![in alloc; u64::MAX; column.len().div_ceil(64)]?;
    equal_mask(column, 7, &mut mask);
    Ok(mask)
}

// The mask of a column of this length that holds the key at these places.
fn mask(alloc: Global, length: usize, places: &str) -> Result<Vec<u64>, Fail> {
    let column = column(alloc, length, places)?;
    Ok(mask_of(alloc, &column)?)
}

// These are the words of the mask.
fn expect_mask(
    rt: &impl Abort,
    alloc: Global,
    (length, places): (usize, &str),
    words: &str,
) -> Result<(), Fail> {
    let mask = mask(alloc, length, places)?;
    let words = numbers(alloc, words, 16)?;
    assert!(rt;
        mask.as_slice() == words.as_slice(),
        "at {length}, {places}"
    );
    Ok(())
}

#[test]
fn a_mask_has_a_bit_for_each_place_of_the_key(rt: HostRuntime) -> Result<(), Fail> {
    for entry in masks().split('\n') {
        let (length, entry) = entry.split_once('|').ok_or("no places")?;
        let (places, words) = entry.split_once('|').ok_or("no words")?;
        let length = length.parse::<usize>().ok().ok_or("no length")?;
        expect_mask(&rt, rt.alloc(), (length, places), words)?;
    }
    Ok(())
}

#[test]
fn three_of_four_places_hold_the_key(rt: HostRuntime) {
    let mut mask = [0];
    equal_mask(&[7, 3, 7, 7], 7, &mut mask);
    assert!(rt; mask == [13]);
}

#[test]
fn the_next_place_is_at_the_start_or_behind_it(rt: HostRuntime) {
    for (from, place) in [
        (0, Some(0)),
        (1, Some(2)),
        (2, Some(2)),
        (3, Some(3)),
        (4, None),
        (64, None),
        (usize::MAX, None),
    ] {
        assert!(rt; next_set(&[13], from) == place, "from {from}");
    }
}

#[test]
fn the_next_place_may_be_in_a_later_word(rt: HostRuntime) {
    for (from, place) in [
        (0, Some(63)),
        (63, Some(63)),
        (64, Some(128)),
        (128, Some(128)),
        (129, None),
    ] {
        assert!(rt; next_set(&[1 << 63, 0, 1], from) == place, "from {from}");
    }
}

#[test]
fn places_of_both_masks_are_left(rt: HostRuntime) {
    let mut mask = [13, 1 << 63];
    and_mask(&mut mask, &[6, u64::MAX]);
    assert!(rt; mask == [4, 1 << 63]);
}

#[test]
fn a_place_is_put_into_a_mask_and_taken_out(rt: HostRuntime) {
    let mut mask = [13, 0];
    include(&mut mask, 65);
    exclude(&mut mask, 2);
    assert!(rt; mask == [9, 2]);
}
