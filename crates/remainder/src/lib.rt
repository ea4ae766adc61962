// The remainder of two floats, by comparisons, additions, subtractions and halvings, each of which is exact.
#![tactic(auto)]

ghost use Rattle.std.specs.Prelude.{◌≡◌, ◌*◌, ◌%◌, ◌<◌, ◌≤◌};
ghost use Rattle.std.specs.Float.{binary64};
ghost use Rattle.std.specs.Float.Ieee as Ieee;
ghost use Rattle.remainder.specs.Steps.{steps, IsSize, IsDoubled};

// The largest of y, 2 * y, 4 * y and so on that is at most x.
fn largest_doubled(x: f64, y: f64) -> f64
    requires number { IsSize x }
    requires divisor { IsSize y }
    requires some { 0 < steps y }
    requires order { steps y ≤ steps x }
    ensures size { IsSize result }
    ensures doubled { IsDoubled (steps y) (steps result) }
    ensures below { steps result ≤ steps x }
    ensures largest { steps x < 2 * steps result }
{
    let mut t = y;
    while t <= x - t {
        t = t + t;
    }
    t
}

// x less as many times t as it has, for an x below two of them.
fn reduced(x: f64, t: f64) -> f64
    requires number { IsSize x }
    requires divisor { IsSize t }
    requires some { 0 < steps t }
    requires below { steps x < 2 * steps t }
    ensures size { IsSize result }
    ensures value { steps result ≡ steps x % steps t }
{
    if t <= x { x - t } else { x }
}

// The remainder of two sizes.
fn of_sizes(x: f64, y: f64) -> f64
    requires number { IsSize x }
    requires divisor { IsSize y }
    requires some { 0 < steps y }
    ensures { result ≡ Ieee.rem binary64 x y }
{
    if x < y {
        return x;
    }
    let mut t = largest_doubled(x, y);
    let mut r = reduced(x, t);
    while y < t {
        t = t * 0.5;
        r = reduced(r, t);
    }
    r
}

// The remainder that `%` gives: x less a whole number of y's, with x's sign.
pub fn remainder(x: f64, y: f64) -> f64
    ensures { result ≡ Ieee.rem binary64 x y }
{
    if !x.is_finite() {
        return f64::NAN;
    }
    if y.is_nan() {
        return f64::NAN;
    }
    if y == 0.0 {
        return f64::NAN;
    }
    if !y.is_finite() {
        return x;
    }
    of_sizes(x.abs(), y.abs()).copysign(x)
}

#[cfg(test)]
mod tests {
    use super::*;

    // The third is what C's fmod gives for the first two. A division tells the two zeros apart.
    #[test]
    fn known_remainders(rt: HostRuntime) {
        let cases = [
            (5.5, 2.0, 1.5),
            (-5.5, 2.0, -1.5),
            (5.5, -2.0, 1.5),
            (1e+308, 3e-300, 1.8611771046241086e-300),
            (1.7976931348623157e+308, 5e-324, 0.0),
            (-1.7976931348623157e+308, 2.5e-323, -1e-323),
            (3e-320, 7e-322, 5.34e-322),
            (-0.0, 1.0, -0.0),
            (0.0, -3.0, 0.0),
            (-6.0, 3.0, -0.0),
            (6.0, -3.0, 0.0),
            (1.0, f64::INFINITY, 1.0),
            (-0.0, -f64::INFINITY, -0.0),
            (0.3, 0.1, 0.09999999999999998),
            (1e+17, 3.3, 2.1828995133340925),
            (2.2250738585072014e-308, 5e-324, 0.0),
            (2.0, 3.0, 2.0),
            (3.0, 3.0, 0.0),
            (1.7976931348623157e+308, 1.7976931348623157e+308, 0.0),
            (
                1.7976931348623157e+308,
                8.98846567431158e+307,
                8.988465674311578e+307,
            ),
            (1.7976931348623157e+308, 1e+308, 7.976931348623157e+307),
            (
                -1.989032661366619e+244,
                7.761117632285041e+178,
                -1.5387579739597894e+178,
            ),
            (
                3.980498358697587e-249,
                -1.5432835417340557e+88,
                3.980498358697587e-249,
            ),
            (
                1.3647584518757569e-192,
                -1.3701135617873088e-206,
                9.897332475667326e-207,
            ),
            (
                -1.7160537630466207e+197,
                6.294675241195386e-44,
                -4.595665238183696e-44,
            ),
            (
                1.0613447212142254e-202,
                4.708325160387546e+207,
                1.0613447212142254e-202,
            ),
            (
                6.387016158513563e-12,
                -9.973130378568733e-246,
                8.381810407734953e-246,
            ),
            (
                8.779753225680271e-236,
                -5.795503248498993e-228,
                8.779753225680271e-236,
            ),
            (
                -5.988180159386011e+243,
                -1.306052388527796e-147,
                -6.253939517149777e-148,
            ),
            (
                -2.436117699484841e-206,
                2.233386999150174e-232,
                -1.5397441209745829e-232,
            ),
            (
                -3.51527970626667e-203,
                1.5987381841032883e-247,
                -2.556365029759754e-249,
            ),
            (
                4.6678633181812096e-36,
                -8.441872792105456e-239,
                2.0754538493568886e-239,
            ),
            (
                1.9015657400796622e-144,
                7.370437700706684e+208,
                1.9015657400796622e-144,
            ),
            (
                -1.7163996725272777e-258,
                -3.2367190832119987e-221,
                -1.7163996725272777e-258,
            ),
            (
                -2.2818334634712625e-234,
                -3.0536383926309363e-84,
                -2.2818334634712625e-234,
            ),
            (
                1.3449551894627777e-181,
                -7.317495976062606e-221,
                2.0544685485986226e-221,
            ),
            (
                5.249822308814304e-77,
                1.5450754142984396e-188,
                1.1961558775035912e-188,
            ),
            (
                -3.953625698224792e-47,
                -2.72491267476498e-229,
                -8.523138316722669e-230,
            ),
            (
                -6.505141861548772e-162,
                1.441484839555994e+304,
                -6.505141861548772e-162,
            ),
            (
                -1.4583679262758548e-269,
                -7.939416668807721e+33,
                -1.4583679262758548e-269,
            ),
            (
                1.4255183989699612e+266,
                -1.525315701232403e+214,
                2.389307482726784e+213,
            ),
            (
                7.750545741548908e+137,
                0.024301399287089676,
                0.006426087127925334,
            ),
            (
                5.326960081783017e-87,
                -1.2570882301712172e+37,
                5.326960081783017e-87,
            ),
            (
                9.952684009002448e-208,
                1.8721667527122837e+62,
                9.952684009002448e-208,
            ),
            (
                3.422978398947072e+302,
                3.6967297937384553e+115,
                2.22116557939593e+115,
            ),
        ];
        for (x, y, want) in cases {
            let r = remainder(x, y);
            assert!(rt; r == want);
            assert!(rt; 1.0 / r == 1.0 / want);
        }
    }

    #[test]
    fn no_number(rt: HostRuntime) {
        let cases = [
            (f64::NAN, 1.0),
            (1.0, f64::NAN),
            (f64::INFINITY, 2.0),
            (-f64::INFINITY, f64::INFINITY),
            (1.0, 0.0),
            (0.0, -0.0),
        ];
        for (x, y) in cases {
            assert!(rt; remainder(x, y).is_nan());
        }
    }
}
