// Fifth roots in whole numbers: a guess that is nearly always right, and searches from it that are right from any start.
ghost use Rattle.std.specs.Prelude.{◌≡◌, ◌+◌, ◌*◌, ◌^◌, ◌≤◌, ◌<◌};
ghost use Rattle.high_angle.specs.SafetyFactor.{largest, smallest, factor_above};
ghost use Rattle.high_angle.specs.PrivateBounds.{base_max, scaled_max};

// A base, and the x that its fifth power is compared with below, stay bare numbers with their bounds: a type would be made for each and
// taken apart at once, which is no plainer.
fn fifth(f: u64) -> u64
    requires { f ≤ base_max }
    ensures { result ≡ f ^ 5 }
{
    f.pow(5)
}

// The factor over a quarter of an octave of joules, a parabola: its start in 2⁴⁹ths of a thousandth, its rise at the start's rate and the
// bend that is taken off by the end in 2²⁰ths.
#[derive(Clone, Copy)]
struct Arc {
    start: u64,
    rise: u64,
    bend: u64,
    // nothing overflows on it, and its end is no larger than the largest base
    ghost end_most: { start + 2 ^ 29 * rise < (base_max + 1) * 2 ^ 49 },
    ghost rise_most: { rise ≤ 2 ^ 29 },
    ghost bend_most: { bend ≤ rise },
}

#[inline(always)]
fn parabola(start: u64, rise: u64, bend: u64) -> Arc
    requires { (start + 2 ^ 29 * rise < (base_max + 1) * 2 ^ 49) × (rise ≤ 2 ^ 29) × (bend ≤ rise) }
{
    Arc { start, rise, bend }
}

// The parabola through the factor at the three Chebyshev nodes of a quarter octave. Octaves come from the highest down, with their quarters
// upward; 2, 3 and 32 hold none of 12,000 to 3,125,000 J, and 35 is the last.
fn arc_over(quarter: u32) -> Arc {
    match quarter {
        0 => parabola(3_638_578_810_966_326_784, 336_599_624, 27_519_756),
        1 => parabola(3_804_609_478_888_491_008, 282_196_587, 19_151_927),
        4 => parabola(3_167_566_833_484_077_056, 293_026_992, 23_957_339),
        5 => parabola(3_312_104_924_968_149_504, 245_666_398, 16_672_721),
        6 => parabola(3_435_093_890_607_919_616, 212_595_732, 12_333_683),
        7 => parabola(3_542_640_319_612_015_616, 188_080_545, 9_528_498),
        8 => parabola(2_757_527_091_167_683_584, 255_094_813, 20_856_075),
        9 => parabola(2_883_354_808_126_889_472, 213_865_021, 14_514_447),
        10 => parabola(2_990_422_921_443_798_528, 185_075_334, 10_737_095),
        11 => parabola(3_084_047_525_793_801_216, 163_733_624, 8_295_040),
        12 => parabola(2_400_566_762_520_349_696, 222_072_933, 18_156_268),
        13 => parabola(2_510_106_152_397_451_264, 186_180_315, 12_635_560),
        14 => parabola(2_603_314_358_756_539_904, 161_117_436, 9_347_184),
        15 => parabola(2_684_819_310_811_811_840, 142_538_399, 7_221_251),
        16 => parabola(2_089_814_747_342_043_392, 193_325_717, 15_805_949),
        17 => parabola(2_185_174_324_902_668_544, 162_079_378, 10_999_894),
        18 => parabola(2_266_316_781_452_394_240, 140_260_875, 8_137_196),
        19 => parabola(2_337_270_963_375_534_080, 124_086_883, 6_286_465),
        20 => parabola(1_819_289_405_483_163_392, 168_299_812, 13_759_878),
        21 => parabola(1_902_304_739_444_245_504, 141_098_294, 9_575_964),
        22 => parabola(1_972_943_350_700_840_960, 122_104_184, 7_083_841),
        23 => parabola(2_034_712_553_742_246_400, 108_023_906, 5_472_685),
        24 => parabola(1_583_783_416_742_038_528, 146_513_496, 11_978_669),
        25 => parabola(1_656_052_462_484_074_752, 122_833_199, 8_336_360),
        26 => parabola(1_717_546_945_303_959_552, 106_297_866, 6_166_842),
        27 => parabola(1_771_320_159_806_008_064, 94_040_272, 4_764_249),
        28 => parabola(1_378_763_545_583_841_792, 127_547_406, 10_428_037),
        29 => parabola(1_441_677_404_063_444_736, 106_932_511, 7_257_223),
        30 => parabola(1_495_211_460_721_899_264, 92_537_667, 5_368_548),
        31 => parabola(1_542_023_762_896_900_608, 81_866_812, 4_147_520),
        33 => parabola(1_255_053_076_198_725_888, 93_090_157, 6_317_780),
        34 => parabola(1_301_657_179_378_269_952, 80_558_718, 4_673_592),
        _ => parabola(1_342_409_655_405_905_920, 71_269_199, 3_610_626),
    }
}

// So far up on the arc, in 2²⁹ths of its length.
fn on_arc(arc: Arc, up: u64) -> u64
    requires { up < 536870912 }
    ensures { result ≤ base_max }
{
    (arc.start + up * (arc.rise - (up * arc.bend >> 29))) >> 49
}

// A guess at the factor, of which nothing but its range is proved: right for 96 of 100 joules from 12,000 to 3,125,000, and else one off.
pub(crate) fn guess(joules: u32) -> u64
    ensures { result ≤ base_max }
{
    let zeros = u32::leading_zeros(joules) % 32;
    let shifted = joules << zeros;
    // four times the zeros and the first three digits are 44 to 79
    let arc = arc_over((4 * zeros + (shifted >> 29) + 20) % 64);
    on_arc(arc, (shifted % 536_870_912) as u64)
}

// A number and its fifth power.
#[derive(Clone, Copy)]
struct Power {
    base: u64,
    fifth: u64,
    ghost is_fifth: { fifth ≡ base ^ 5 },
}

// From a start down to a number whose fifth power is at most x.
fn at_most(start: u64, x: u64) -> Power
    requires { start ≤ base_max }
    ensures { result.fifth ≤ x }
{
    // a while: a search of the range, (0..=start).rev().find(..), gives an Option that is never None, and not the power, which is needed
    let mut base = start;
    let mut power = fifth(base);
    while x < power {
        base -= 1;
        power = fifth(base);
    }
    Power { base, fifth: power }
}

// A number, its fifth power and the next one's.
#[derive(Clone, Copy)]
pub(crate) struct Root {
    pub low: u64,
    pub below: u64,
    pub above: u64,
    ghost is_below: { below ≡ low ^ 5 },
    ghost is_above: { above ≡ (low + 1) ^ 5 },
}

// From there up to the largest number whose fifth power is at most x.
fn up_to(from: Power, x: u64) -> Root
    requires { (from.fifth ≤ x) × (x ≤ scaled_max) }
    ensures { result.low ≡ largest factor_above x }
{
    // a while, as above: each step hands on the power that it has
    let mut low = from.base;
    let mut below = from.fifth;
    let mut above = fifth(low + 1);
    while above <= x {
        low += 1;
        below = above;
        above = fifth(low + 1);
    }
    Root { low, below, above }
}

// The largest number whose fifth power is at most x, sought from a start.
pub(crate) fn largest_at_most(start: u64, x: u64) -> Root
    requires { (start ≤ base_max) × (x ≤ scaled_max) }
    ensures { result.low ≡ largest factor_above x }
{
    let from = at_most(start, x);
    up_to(from, x)
}

// The smallest number whose fifth power is at least x, from one whose fifth power isn't above x.
pub(crate) fn smallest_at_least(from: Root, x: u64) -> u64
    requires { (from.below ≤ x) × (x ≤ scaled_max) }
    ensures { result ≡ smallest factor_above x }
{
    if from.below == x {
        return from.low;
    }
    // a while, as above: the first power is at hand
    let mut high = from.low + 1;
    let mut power = from.above;
    while power < x {
        high += 1;
        power = fifth(high);
    }
    high
}
