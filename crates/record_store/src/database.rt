ghost use Rattle.std.specs.Prelude.{◌≡◌, ◌<◌, ◌≤◌, ◌^◌, MatchOption, slice_index};
ghost use Rattle.spiral_model.specs.Sets.{IsSet, entries, max_records};
ghost use Rattle.spiral_model.specs.Records.{entry_of};
ghost use Rattle.spiral_model.specs.Databases.{record_count, record_at, values_at};

use spiral_sets::ParamSet;
use std::marker::Model;

/// A database: records of one length in bytes, one after the other. No record is longer than the set's capacity, and
/// there are at most as many as the set has places.
#[derive(Debug, Drop)]
pub struct Database {
    pub set: ParamSet,
    pub length: u32,
    pub records: Vec<u8>,
}

impl Model for Database {
    ghost use Rattle.spiral_model.specs.Databases.{RecordTable, IsTable};

    ghost Value = { RecordTable };

    ghost view = { λ db. record { set = db.set; record_length = db.length; bytes = db.records.items } };

    ghost invariant = { λ db. IsTable (record { set = db.set; record_length = db.length; bytes = db.records.items }) };
}

impl Database {
    /// The set of the database.
    pub fn set(&self) -> ParamSet
        ensures value { result ≡ self.now.set }
        ensures known { IsSet result }
    {
        self.set
    }

    /// How many records there are.
    pub fn count(&self) -> u32
        ensures value { result ≡ record_count self.now }
        ensures most { result ≤ max_records self.now.set }
    {
        (self.records.len() / self.length as usize) as u32
    }

    /// The bytes of record `i`; `None` exactly where `i` is at least the count.
    pub fn record(&self, i: u32) -> Option<&[u8]>
        ensures { MatchOption result (record_count self.now ≤ i) (λ bytes. (i < record_count self.now) × (bytes.now ≡ record_at self.now i)) }
    {
        if i >= self.count() {
            return None;
        }
        let start = i as usize * self.length as usize;
        Some(&self.records[start..start + self.length as usize])
    }

    /// The value at a place of an entry of record `i`'s matrix: the record's bytes, with zeros after them, cut into
    /// values of p_bits bits, N of them an entry. It is 0 where there is no such record.
    pub fn value(&self, i: u32, entry: u32, place: u32) -> u64
        requires record { i < max_records self.now.set }
        requires entry { entry < entries self.now.set }
        requires place { place < self.now.set.degree }
        ensures value { result ≡ slice_index (entry_of self.now.set (values_at self.now i) entry) place }
        ensures below { result < 2 ^ self.now.set.p_bits }
    {
        let index = entry as usize * self.set.degree as usize + place as usize;
        match self.record(i) {
            Some(bytes) => bit_packing::value_at(bytes, self.set.p_bits, index),
            None => 0,
        }
    }
}
