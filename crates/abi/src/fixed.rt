// The fixed shapes under C names: their corners in one list, three numbers each. Another length is refused 1; any bits pass.
ghost use Rattle.std.specs.Prelude.{◌≡◌, [], ◌∷◌};
ghost use Rattle.places.specs.Loops.{one_if};
ghost use Rattle.geometry.specs.Leaves.{vertices_of, tet_volume_of_list, wedge_volume_of, hex_volume_of, tet_contains_of};
ghost use Rattle.geometry.specs.Leaves.{wedge_contains_of};
ghost use Rattle.geometry.specs.Leaves.{hex_contains_of};
ghost use Rattle.geometry.specs.Listed.{told, written, values, of_shape};

use places::refusal::Refusal;

pub fn wegrusamt_tet_volume(p: &[f64], out: &mut [f64]) -> u8
    ensures { told result out.new [] ≡ written (of_shape 12 p.now (values (tet_volume_of_list (vertices_of p.now) ∷ []) []))
        out.old [] }
{
    if p.len() != 12 {
        return u8::from(Refusal::Size);
    }
    let [a, b, c, d] = answer_lists::given::vertices::<4>(p);
    answer_lists::put(&[geometry::fixed::tet_volume(a, b, c, d)], out)
}

pub fn wegrusamt_wedge_volume(p: &[f64], out: &mut [f64]) -> u8
    ensures { told result out.new [] ≡ written (of_shape 18 p.now (values (wedge_volume_of (vertices_of p.now) ∷ []) []))
        out.old [] }
{
    if p.len() != 18 {
        return u8::from(Refusal::Size);
    }
    answer_lists::put(
        &[geometry::fixed::wedge_volume(answer_lists::given::vertices::<6>(p))],
        out,
    )
}

pub fn wegrusamt_hex_volume(p: &[f64], out: &mut [f64]) -> u8
    ensures { told result out.new [] ≡ written (of_shape 24 p.now (values (hex_volume_of (vertices_of p.now) ∷ []) [])) out.old [] }
{
    if p.len() != 24 {
        return u8::from(Refusal::Size);
    }
    answer_lists::put(
        &[geometry::fixed::hex_volume(answer_lists::given::vertices::<8>(p))],
        out,
    )
}

pub fn wegrusamt_tet_contains(p: &[f64], x: f64, y: f64, z: f64, out: &mut [usize]) -> u8
    ensures { told result [] out.new ≡ written (of_shape 12 p.now
        (values [] (one_if (tet_contains_of (x ∷ y ∷ z ∷ []) (vertices_of p.now)) ∷ []))) [] out.old }
{
    if p.len() != 12 {
        return u8::from(Refusal::Size);
    }
    let inside = geometry::fixed::tet_contains([x, y, z], answer_lists::given::vertices::<4>(p));
    answer_lists::put_counts(&[places::one_if(inside)], out)
}

pub fn wegrusamt_wedge_contains(p: &[f64], x: f64, y: f64, z: f64, out: &mut [usize]) -> u8
    ensures { told result [] out.new ≡ written (of_shape 18 p.now
        (values [] (one_if (wedge_contains_of (x ∷ y ∷ z ∷ []) (vertices_of p.now)) ∷ []))) [] out.old }
{
    if p.len() != 18 {
        return u8::from(Refusal::Size);
    }
    let inside = geometry::fixed::wedge_contains([x, y, z], answer_lists::given::vertices::<6>(p));
    answer_lists::put_counts(&[places::one_if(inside)], out)
}

pub fn wegrusamt_hex_contains(p: &[f64], x: f64, y: f64, z: f64, out: &mut [usize]) -> u8
    ensures { told result [] out.new ≡ written (of_shape 24 p.now
        (values [] (one_if (hex_contains_of (x ∷ y ∷ z ∷ []) (vertices_of p.now)) ∷ []))) [] out.old }
{
    if p.len() != 24 {
        return u8::from(Refusal::Size);
    }
    let inside = geometry::fixed::hex_contains([x, y, z], answer_lists::given::vertices::<8>(p));
    answer_lists::put_counts(&[places::one_if(inside)], out)
}
