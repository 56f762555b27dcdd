// The settings of a store, and the limits of document 01: the one place in the code that spells a limit.
// Definitions: specs/Limits.antt, specs/Settings.antt.
#![tactic(auto)]

ghost use Rattle.std.specs.Prelude.{◌≡◌};
ghost use Rattle.config.specs.Settings.{defaults, with_m, with_ef, with_seed, with_metric, in_range, validate as validate_of, metric_of, metric_number, is_cosine, caption_limit};

use refusal::Refusal;

// The number in the file is `Metric::number`.
#[derive(Clone, Copy)]
pub enum Metric {
    SquaredL2,
    Cosine,
    InnerProduct,
}

impl Metric {
    #[tactic(auto, unfolding(crate::specs::Settings::metric_of))]
    pub fn from_u32(v: u32) -> Result<Metric, Refusal>
        ensures { result ≡ metric_of v }
    {
        match v {
            0 => Ok(Metric::SquaredL2),
            1 => Ok(Metric::Cosine),
            2 => Ok(Metric::InnerProduct),
            _ => Err(Refusal::WrongMetric),
        }
    }

    pub fn number(self) -> u32
        ensures { result ≡ metric_number self }
    {
        match self {
            Metric::SquaredL2 => 0,
            Metric::Cosine => 1,
            Metric::InnerProduct => 2,
        }
    }

    pub fn is_cosine(self) -> bool
        ensures { result ≡ is_cosine self }
    {
        matches!(self, Metric::Cosine)
    }
}

#[derive(Clone, Copy)]
pub struct Config {
    pub dimensions: usize,
    pub m: usize,
    pub ef_construction: usize,
    pub seed: u64,
    pub metric: Metric,
}

impl Config {
    pub const MIN_DIMENSIONS: usize = 1;

    pub const MAX_DIMENSIONS: usize = 4096;

    pub const MIN_M: usize = 2;

    pub const MAX_M: usize = 64;

    pub const MAX_EF: usize = 4096;

    pub const MAX_METADATA: usize = 16_384;

    pub const MAX_RECORDS: usize = 100_000;

    pub const MIN_SNAPSHOT_BYTES: usize = 52;

    pub const MAX_SNAPSHOT_BYTES: usize = 268_435_456;

    pub const MIN_CACHE_BYTES: usize = 52;

    pub const MAX_CACHE_BYTES: usize = 134_217_728;

    pub const MIN_FRAME: usize = 17;

    pub const MAX_FRAME: usize = 8_388_608;

    pub const MAX_BATCH_OPERATIONS: usize = 1024;

    pub const MAX_LOG_BYTES: usize = 1_073_741_824;

    pub const DEFAULT_M: usize = 16;

    pub const DEFAULT_EF: usize = 200;

    pub const DEFAULT_SEED: u64 = 42;

    pub fn new(dimensions: usize) -> Self
        ensures { result ≡ defaults dimensions }
    {
        Self {
            dimensions,
            m: Config::DEFAULT_M,
            ef_construction: Config::DEFAULT_EF,
            seed: Config::DEFAULT_SEED,
            metric: Metric::SquaredL2,
        }
    }

    pub fn with_m(mut self, m: usize) -> Self
        ensures { result ≡ with_m self m }
    {
        self.m = m;
        self
    }

    pub fn with_ef_construction(mut self, ef: usize) -> Self
        ensures { result ≡ with_ef self ef }
    {
        self.ef_construction = ef;
        self
    }

    pub fn with_seed(mut self, seed: u64) -> Self
        ensures { result ≡ with_seed self seed }
    {
        self.seed = seed;
        self
    }

    pub fn with_metric(mut self, metric: Metric) -> Self
        ensures { result ≡ with_metric self metric }
    {
        self.metric = metric;
        self
    }

    #[tactic(auto, unfolding(crate::specs::Settings::validate))]
    pub fn validate(self) -> Result<(), Refusal>
        ensures { result ≡ validate_of self }
    {
        let d = self.dimensions;
        let m = self.m;
        let ef = self.ef_construction;
        if !in_range(d, Config::MIN_DIMENSIONS, Config::MAX_DIMENSIONS) {
            return Err(Refusal::WrongDimensions);
        }
        if !in_range(m, Config::MIN_M, Config::MAX_M) {
            return Err(Refusal::WrongM);
        }
        if !in_range(ef, m, Config::MAX_EF) {
            return Err(Refusal::WrongEf);
        }
        Ok(())
    }

    // How long a caption may be. Whoever tests a caption's length asks here.
    pub fn caption_limit(self) -> usize
        ensures { result ≡ caption_limit self }
    {
        Config::MAX_METADATA
    }
}

// low..=high
#[tactic(auto, unfolding(crate::specs::Settings::in_range))]
pub fn in_range(x: usize, low: usize, high: usize) -> bool
    ensures { result ≡ in_range x low high }
{
    low <= x && x <= high
}
