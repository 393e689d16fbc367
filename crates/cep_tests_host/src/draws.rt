// The places that a seed draws.
use cep_choice::Draw;
use std::process::Abort;

// The first words of the seed 42 are a15c02b7, 7b47f409 and ba1d3330.
#[test]
fn a_seed_draws_its_places_in_order(rt: HostRuntime) {
    let mut draw = Draw::new(42);
    let drawn = [
        draw.place(1),
        draw.place(1),
        draw.place(2),
        draw.place(2),
        draw.place(3),
    ];
    assert!(rt; drawn == [1, 1, 2, 1, 3]);
}
