//! Databases made, written and read, and values in bytes.
ghost use Rattle.std.specs.Prelude.{◌<◌, ◌≤◌, ◌^◌, All, IsTrue};

use crate::frames::{EDGE_256, STREAM_2048};
use bit_packing::{MAX_WIDTH, pack, unpack, value_at};
use pir_io::MemFiles;
use record_store::{Database, DbError, PrepareError, check_length, prepare, read_db, write_db};
use spiral_sets::set_at;
use std::process::Abort;
use std::test::Fail;

/// The Database frame of two records of 4 bytes: the header, the count, the length, the records.
const TWO: &[u8] =
    b"SPIR\x01\x06\x08edge-256\x18\0\0\0\0\0\0\0\x02\0\0\0\0\0\0\0\x04\0\0\0\0\0\0\0\x01\x02\x03\x04\x05\x06\x07\x08";

/// The value at a place of entry 0 of record `i`.
fn first_entry(rt: &impl Abort, db: &Database, i: u32, place: u32) -> u64 {
    let set = db.set();
    assert!(rt; u64::from(i) < set.max_records());
    assert!(rt; set.n == 2);
    assert!(rt; place < set.degree);
    db.value(i, 0, place)
}

#[test]
fn a_database_is_made_written_and_read_back(rt: HostRuntime) -> Result<(), Fail> {
    let alloc = rt.alloc();
    let set = set_at(EDGE_256);
    assert!(rt; check_length(&set, 4).is_ok());
    let made = prepare(&set, 4, vec![in alloc; 1, 2, 3, 4, 5, 6, 7, 8]?)?;
    let mut files = MemFiles::new(alloc, Vec::new(alloc));
    write_db(alloc, &made, &mut files, "db")?;
    assert_eq!(rt; files.bytes("db").ok_or("no file")?, TWO);
    let db = read_db(alloc, &mut files, "db")?;
    assert_eq!(rt; db.set(), set);
    assert_eq!(rt; db.count(), 2);
    assert_eq!(rt; db.record(1).ok_or("no record")?, [5, 6, 7, 8].as_slice());
    // edge-256 has values of 8 bits: value 2 of record 0 is its third byte.
    assert_eq!(rt; first_entry(&rt, &db, 0, 2), 3);
    assert_eq!(rt; first_entry(&rt, &db, 1, 4), 0);
    Ok(())
}

/// Three values of 15 bits, and the six bytes that hold them: value k begins at bit 15k, and bit n is bit n % 8 of byte n / 8.
const VALUES: [u64; 3] = [0x7fff, 0x0001, 0x4001];

const BYTES: [u8; 6] = [0xff, 0xff, 0x00, 0x40, 0x00, 0x10];

fn are_of_width(values: &[u64], width: u32) -> bool
    requires { width ≤ MAX_WIDTH }
    ensures { IsTrue result → All (λ x. x < 2 ^ width) values.now }
{
    values.iter().all(|x| *x >> width == 0)
}

#[test]
fn values_of_15_bits_are_packed_and_cut(rt: HostRuntime) -> Result<(), Fail> {
    assert!(rt; are_of_width(&VALUES, 15));
    let mut bytes = [0xff; 6];
    pack(&VALUES, 15, &mut bytes);
    assert_eq!(rt; bytes, BYTES);
    let mut values = [0; 3];
    unpack(&BYTES, 15, &mut values);
    assert_eq!(rt; values, VALUES);
    assert_eq!(rt; value_at(&BYTES, 15, 2), 0x4001);
    let set = set_at(STREAM_2048);
    let db = prepare(&set, 6, BYTES.to_vec(rt.alloc())?)?;
    assert_eq!(rt; first_entry(&rt, &db, 0, 2), 0x4001);
    assert_eq!(rt; first_entry(&rt, &db, 0, 3), 0);
    Ok(())
}

#[test]
fn errors_have_a_text(rt: HostRuntime) -> Result<(), Fail> {
    let alloc = rt.alloc();
    let ragged = PrepareError::Ragged { length: 4, size: 7 };
    let text = format!(in alloc; "{ragged}; {}", DbError::File)?;
    let want = "7 bytes are not whole records of 4 bytes; the file could not be read or written";
    assert_eq!(rt; text.as_str(), want);
    Ok(())
}
