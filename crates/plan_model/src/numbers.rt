//! The numbers of a plan.

/// The numbers of a plan. What range each has, a `Plan` keeps.
#[derive(Clone, Copy, Debug, PartialEq, Eq)]
pub struct Numbers {
    /// How many frames there are beside those of the images: 1 to 65,536.
    pub frames: u32,
    /// How many workers serve: 1 to 16.
    pub workers: u8,
    /// The most idle contexts that are kept: 0 to 256.
    pub idle: u16,
    /// The room of the layer cache, in layers: 1 to 256.
    pub room: u16,
    /// How many requests a context serves at most: 1 to 64.
    pub uses: u32,
    /// The most instructions of a request: 1 to 1,000,000,000.
    pub budget: u64,
    /// The most instructions of the run that a layer is made by: 1 to 1,000,000,000.
    pub prepare: u64,
    /// The bytes of a stack: 4,096 to 16,777,216, a multiple of 4,096.
    pub stack_bytes: u64,
    /// What the clock shows where no real one is read, in nanoseconds: 0 to 2^63 less 1.
    pub clock: u64,
    /// How many requests are served at most: 1 to 4,096.
    pub serve: u32,
}
