// abtm.rs: values of tiles. A zero of either sign, +0.0, and how many values of a list may stand at present places.
#![tactic(auto)]

ghost use Rattle.std.specs.Prelude.{◌≡◌, ◌+◌, length};
ghost use mir.Val.{bool_byte};
ghost use Rattle.lent.specs.Lists.{only};
ghost use Rattle.abtm_values.specs.Values.{is_zero, solid, plus_zero};

// A zero of either sign.
pub fn is_zero(v: f64) -> bool
    ensures { result ≡ is_zero v }
{
    v == 0.0
}

// What an absent place holds.
pub fn is_plus_zero(v: f64) -> bool
    ensures { result ≡ plus_zero v }
{
    if v == 0.0 {
        return f64::to_bits(v) == 0;
    }
    false
}

fn one_if_solid(v: f64) -> usize
    ensures { result ≡ bool_byte (solid v) }
{
    if v < 0.0 {
        return 1;
    }
    if 0.0 < v {
        return 1;
    }
    0
}

// A loop as in `count_four`, whose four counts go on side by side, so that no `sum` says them.
fn count_each(values: &[f64]) -> usize
    ensures { result ≡ length (only solid values.now) }
{
    let mut solid: usize = 0;
    for value in values {
        solid += one_if_solid(*value);
    }
    solid
}

// How many values of four lists of one length are neither NaN nor zero.
fn count_four(first: &[f64], second: &[f64], third: &[f64], fourth: &[f64]) -> usize
    requires { (length second.now ≡ length first.now) × (length third.now ≡ length first.now) × (length fourth.now ≡ length first.now) }
    ensures { result ≡ length (only solid first.now) + length (only solid second.now) + length (only solid third.now) + length (only solid fourth.now) }
{
    let mut a: usize = 0;
    let mut b: usize = 0;
    let mut c: usize = 0;
    let mut d: usize = 0;
    for i in 0..first.len() {
        a += one_if_solid(first[i]);
        b += one_if_solid(second[i]);
        c += one_if_solid(third[i]);
        d += one_if_solid(fourth[i]);
    }
    a + b + c + d
}

// csr32's `all_finite` is cut likewise. It joins bools and this adds ones, so one function for both would take two closures.
// How many values are neither NaN nor zero. Four parts are read side by side: memory serves four streams better than one.
pub fn count_solid(values: &[f64]) -> usize
    ensures { result ≡ length (only solid values.now) }
{
    let q = values.len() / 4;
    let most = count_four(
        &values[0..q],
        &values[q..2 * q],
        &values[2 * q..3 * q],
        &values[3 * q..4 * q],
    );
    most + count_each(&values[4 * q..])
}
