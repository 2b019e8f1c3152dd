// Square roots in whole numbers, by the machine's root of a float.
ghost use Rattle.std.specs.Prelude.{◌^◌, ◌<◌};
ghost use Rattle.trade_off.specs.PrivateSolved.{IsWholeRoot};

// 2^52: from this float on the next one is one more, so that a small one added to it is rounded to a whole number, its lowest bits.
const WHOLE_FROM: f64 = 4_503_599_627_370_496.0;

// The whole square root. The machine's root is rounded, and lessened by one where its square is too large; two products then test it, so
// that no law of floats is needed. Should the test fail, std's root is taken, which is found by halving.
pub(crate) fn whole_root(n: u64) -> u64
    requires { n < 2 ^ 32 }
    ensures { IsWholeRoot n result }
{
    let near = (n as f64).sqrt() + WHOLE_FROM;
    // a NaN, which this never is, would have no bits to go by; every root that is asked for is below 2^16
    let rounded = if 0.0 <= near {
        near.to_bits() & 0xffff
    } else {
        0
    };
    let root = rounded - (n < rounded * rounded) as u64;
    if (root * root <= n) & (n < (root + 1) * (root + 1)) {
        return root;
    }
    n.isqrt()
}
