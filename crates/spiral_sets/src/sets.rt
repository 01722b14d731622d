ghost use Rattle.std.specs.Prelude.{◌≡◌, ◌<◌, ◌≤◌, slice_get, Some, OnSome, IfSome};
ghost use Rattle.spiral_sets.specs.Sets.{IsSet, name_of, set_of, max_records, capacity, rho};
ghost use Rattle.spiral_sets.specs.Counts.{words_needed, setup_len, query_len, reply_len};

use crate::ParamSet;

/// The ten parameter sets, in the order of their ids.
#[rattlefmt::skip]
pub const SETS: [ParamSet; 10] = [
    ParamSet { id: 0, direct: false, pack: false, degree: 256, n: 2, p_bits: 2, nu1: 2, nu2: 2, w_left: 2, w_right: 1, w_conv: 2, w_gsw: 7, q2_bits: 20, always: true },
    ParamSet { id: 1, direct: false, pack: true, degree: 256, n: 2, p_bits: 2, nu1: 2, nu2: 2, w_left: 2, w_right: 1, w_conv: 2, w_gsw: 7, q2_bits: 20, always: true },
    ParamSet { id: 2, direct: true, pack: false, degree: 256, n: 2, p_bits: 8, nu1: 2, nu2: 1, w_left: 0, w_right: 0, w_conv: 0, w_gsw: 7, q2_bits: 24, always: true },
    ParamSet { id: 3, direct: true, pack: true, degree: 256, n: 2, p_bits: 8, nu1: 2, nu2: 1, w_left: 0, w_right: 0, w_conv: 7, w_gsw: 7, q2_bits: 24, always: true },
    ParamSet { id: 4, direct: true, pack: false, degree: 256, n: 2, p_bits: 8, nu1: 1, nu2: 1, w_left: 0, w_right: 0, w_conv: 0, w_gsw: 7, q2_bits: 12, always: false },
    ParamSet { id: 5, direct: false, pack: false, degree: 2048, n: 2, p_bits: 8, nu1: 6, nu2: 3, w_left: 7, w_right: 2, w_conv: 7, w_gsw: 7, q2_bits: 24, always: false },
    ParamSet { id: 6, direct: false, pack: true, degree: 2048, n: 4, p_bits: 8, nu1: 6, nu2: 3, w_left: 7, w_right: 2, w_conv: 7, w_gsw: 7, q2_bits: 24, always: false },
    ParamSet { id: 7, direct: true, pack: false, degree: 2048, n: 2, p_bits: 15, nu1: 6, nu2: 3, w_left: 0, w_right: 0, w_conv: 0, w_gsw: 7, q2_bits: 30, always: true },
    ParamSet { id: 8, direct: true, pack: true, degree: 2048, n: 4, p_bits: 12, nu1: 6, nu2: 3, w_left: 0, w_right: 0, w_conv: 7, w_gsw: 7, q2_bits: 30, always: true },
    ParamSet { id: 9, direct: false, pack: false, degree: 2048, n: 2, p_bits: 8, nu1: 8, nu2: 4, w_left: 7, w_right: 2, w_conv: 7, w_gsw: 7, q2_bits: 24, always: false },
];

/// The numbers of one set that its files and words have, each proved to be the one that the set's dimensions give.
struct Counts {
    max_records: u64,
    capacity: u64,
    words_needed: u64,
    setup_len: u64,
    query_len: u64,
    reply_len: u64,
    rho: u32,
}

#[rattlefmt::skip]
const COUNTS: [Counts; 10] = [
    Counts { max_records: 16, capacity: 256, words_needed: 345600, setup_len: 1655808, query_len: 3584, reply_len: 1808, rho: 4 },
    Counts { max_records: 16, capacity: 256, words_needed: 338432, setup_len: 1605632, query_len: 3584, reply_len: 1808, rho: 4 },
    Counts { max_records: 8, capacity: 1024, words_needed: 33280, setup_len: 0, query_len: 172032, reply_len: 2832, rho: 3 },
    Counts { max_records: 8, capacity: 1024, words_needed: 32512, setup_len: 86016, query_len: 71680, reply_len: 2832, rho: 3 },
    Counts { max_records: 4, capacity: 1024, words_needed: 29184, setup_len: 0, query_len: 150528, reply_len: 2064, rho: 3 },
    Counts { max_records: 512, capacity: 8192, words_needed: 1536000, setup_len: 7225344, query_len: 28672, reply_len: 22544, rho: 5 },
    Counts { max_records: 512, capacity: 32768, words_needed: 1785856, setup_len: 8716288, query_len: 28672, reply_len: 65552, rho: 5 },
    Counts { max_records: 512, capacity: 15360, words_needed: 1642496, setup_len: 0, query_len: 8601600, reply_len: 32784, rho: 5 },
    Counts { max_records: 512, capacity: 49152, words_needed: 1091584, setup_len: 2293760, query_len: 3211264, reply_len: 88080, rho: 5 },
    Counts { max_records: 4096, capacity: 8192, words_needed: 1634304, setup_len: 7684096, query_len: 28672, reply_len: 22544, rho: 5 },
];

/// The set of that name; `None` exactly where no set has it.
pub fn set_named(name: &str) -> Option<ParamSet>
    ensures { result ≡ set_of name.now }
{
    match name {
        "tiny-spiral" => Some(SETS[0]),
        "tiny-pack" => Some(SETS[1]),
        "tiny-stream" => Some(SETS[2]),
        "tiny-streampack" => Some(SETS[3]),
        "edge-256" => Some(SETS[4]),
        "spiral-2048" => Some(SETS[5]),
        "pack-2048" => Some(SETS[6]),
        "stream-2048" => Some(SETS[7]),
        "streampack-2048" => Some(SETS[8]),
        "big-2048" => Some(SETS[9]),
        _ => None,
    }
}

/// The set at position `i` of the table, from 0.
pub fn set_at(i: usize) -> ParamSet
    requires { i < 10 }
    ensures is_set { IsSet result }
    ensures value { slice_get SETS i ≡ Some result }
{
    SETS[i]
}

impl ParamSet {
    /// The set's name.
    pub fn name(&self) -> &'static str
        requires { IsSet self.now }
        ensures { result.now ≡ name_of self.now }
    {
        match self.id {
            0 => "tiny-spiral",
            1 => "tiny-pack",
            2 => "tiny-stream",
            3 => "tiny-streampack",
            4 => "edge-256",
            5 => "spiral-2048",
            6 => "pack-2048",
            7 => "stream-2048",
            8 => "streampack-2048",
            _ => "big-2048",
        }
    }

    /// How many records a database of the set has at most: 2^(nu1 + nu2).
    pub fn max_records(&self) -> u64
        requires { IsSet self.now }
        ensures { result ≡ max_records self.now }
    {
        COUNTS[self.id as usize].max_records
    }

    /// How many bytes a record has at most: those of n times n times N values of p_bits bits.
    pub fn capacity(&self) -> u64
        requires { IsSet self.now }
        ensures { result ≡ capacity self.now }
    {
        COUNTS[self.id as usize].capacity
    }

    /// How many 64-bit words a query takes, its secrets and keys included.
    pub fn words_needed(&self) -> u64
        requires { IsSet self.now }
        ensures { result ≡ words_needed self.now }
    {
        COUNTS[self.id as usize].words_needed
    }

    /// How many bytes the body of a Setup frame has.
    pub fn setup_len(&self) -> u64
        requires { IsSet self.now }
        ensures { result ≡ setup_len self.now }
    {
        COUNTS[self.id as usize].setup_len
    }

    /// How many bytes the body of a Query frame has.
    pub fn query_len(&self) -> u64
        requires { IsSet self.now }
        ensures { result ≡ query_len self.now }
    {
        COUNTS[self.id as usize].query_len
    }

    /// How many bytes the body of a Reply frame has.
    pub fn reply_len(&self) -> u64
        requires { IsSet self.now }
        ensures { result ≡ reply_len self.now }
    {
        COUNTS[self.id as usize].reply_len
    }

    /// rho, the rounds of the expansion's selection side: the least number with 2^rho >= t nu2.
    pub fn rho(&self) -> u32
        requires { IsSet self.now }
        ensures value { result ≡ rho self.now }
        ensures most { result ≤ 5 }
    {
        COUNTS[self.id as usize].rho
    }
}
