// The random source. Its state is a number of 32 bits.
ghost use Rattle.std.specs.Prelude.{◌<◌, length};

#[derive(Clone, Copy)]
pub(crate) struct Source(u32);

impl Source {
    // The source that a case number starts from.
    pub(crate) fn of_case(n: u32) -> Source {
        Source(n.wrapping_mul(2_654_435_761))
    }

    // A number below n.
    pub(crate) fn below(&mut self, n: u64) -> u64
        requires { 0 < n }
        ensures { (result < n) × (result < 65536) }
    {
        self.0 = self.0.wrapping_mul(1_664_525).wrapping_add(1_013_904_223);
        u64::from(self.0 / 65536) % n
    }

    // 32 bits, the higher half first.
    pub(crate) fn bits_32(&mut self) -> u64
        ensures { result < 4294967296 }
    {
        let high = self.below(65536);
        high * 65536 + self.below(65536)
    }

    // 64 bits, the higher half first.
    pub(crate) fn bits_64(&mut self) -> u64 {
        let high = self.bits_32();
        high * 4_294_967_296 + self.bits_32()
    }

    // A number of a band. As the sum of two numbers of 32 bits it is below 2³³: a clause here and where it is used, since a type for it
    // would be taken apart at once.
    pub(crate) fn of_band(&mut self, band: (u32, u32)) -> u64
        ensures { result < 8589934592 }
    {
        let (first, last) = band;
        u64::from(first) + self.bits_32() % (u64::from(last.saturating_sub(first)) + 1)
    }

    // A number of one of the bands, each as likely as another.
    pub(crate) fn of_bands(&mut self, bands: &[(u32, u32)]) -> u64
        requires { 0 < length bands.now }
    {
        let band = self.below(bands.len() as u64) as usize;
        self.of_band(bands[band])
    }
}
