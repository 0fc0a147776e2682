// The leaves on f64. Those that return a number have its pattern for a code.
use crate::unknown;
use question_lists::words::{argument, from, number, word};

// What a leaf returns whose numbers are the arguments.
pub fn returned(q: &[u64]) -> u64 {
    let x = argument(q, 1);
    let y = argument(q, 2);
    match word(q, 0) {
        60 => floats::pattern(abi::leaves::wegrusamt_magnitude(x)),
        61 => floats::pattern(abi::leaves::wegrusamt_least(x, y)),
        62 => floats::pattern(abi::leaves::wegrusamt_largest(x, y)),
        63 => floats::pattern(abi::leaves::wegrusamt_root(x)),
        64 => floats::pattern(abi::leaves::wegrusamt_hypot(x, y)),
        65 => abi::leaves::wegrusamt_pattern(x),
        66 => floats::pattern(abi::leaves::wegrusamt_of_pattern(word(q, 1))),
        _ => u64::from(unknown(q)),
    }
}

// The same of a leaf whose numbers stand in the line, from the place on that the first argument says.
pub fn on_numbers(q: &[u64], coords: &[f64], values: &mut [f64]) -> u64 {
    let xs = from(coords, word(q, 1) as usize);
    match word(q, 0) {
        70 => floats::pattern(cross2(xs)),
        71 => abi::leaves::wegrusamt_dominant_axis(
            number(xs, 0),
            number(xs, 1),
            number(xs, 2),
        ) as u64,
        72 => u64::from(same_side(xs)),
        73 => u64::from(coplanar_opposite(xs)),
        74 => u64::from(project2(xs, word(q, 2) as usize, values)),
        75 => u64::from(segment_intersection(xs, values)),
        76 => u64::from(segment_plane_intersection(xs, values)),
        _ => u64::from(unknown(q)),
    }
}

fn cross2(xs: &[f64]) -> f64 {
    abi::leaves::wegrusamt_cross2(
        number(xs, 0),
        number(xs, 1),
        number(xs, 2),
        number(xs, 3),
        number(xs, 4),
        number(xs, 5),
    )
}

fn same_side(xs: &[f64]) -> u8 {
    abi::leaves::wegrusamt_plane_same_side(
        number(xs, 0),
        number(xs, 1),
        number(xs, 2),
        number(xs, 3),
        number(xs, 4),
        number(xs, 5),
        number(xs, 6),
        number(xs, 7),
        number(xs, 8),
    )
}

fn coplanar_opposite(xs: &[f64]) -> u8 {
    abi::leaves::wegrusamt_plane_coplanar_opposite(
        number(xs, 0),
        number(xs, 1),
        number(xs, 2),
        number(xs, 3),
        number(xs, 4),
        number(xs, 5),
        number(xs, 6),
        number(xs, 7),
        number(xs, 8),
    )
}

fn project2(xs: &[f64], axis: usize, values: &mut [f64]) -> u8 {
    abi::leaves::wegrusamt_project2(number(xs, 0), number(xs, 1), number(xs, 2), axis, values)
}

fn segment_intersection(xs: &[f64], values: &mut [f64]) -> u8 {
    abi::leaves::wegrusamt_segment_intersection(
        number(xs, 0),
        number(xs, 1),
        number(xs, 2),
        number(xs, 3),
        number(xs, 4),
        number(xs, 5),
        number(xs, 6),
        number(xs, 7),
        values,
    )
}

fn segment_plane_intersection(xs: &[f64], values: &mut [f64]) -> u8 {
    abi::leaves::wegrusamt_segment_plane_intersection(
        number(xs, 0),
        number(xs, 1),
        number(xs, 2),
        number(xs, 3),
        number(xs, 4),
        number(xs, 5),
        number(xs, 6),
        number(xs, 7),
        values,
    )
}
