//! FSE tables: the default one of literals lengths in RFC 8878, and descriptions that the program `zstd` 1.5.4 wrote.

use std::process::Abort;
use zstd_decode::{append_values, backward_end, fse_table, next_accuracy_log, previous_bits};

/// The default distribution of literals length codes (3.1.1.3.2.2.1), each probability plus 1.
const LITERALS_LENGTHS: [u16; 36] = [
    5, 4, 3, 3, 3, 3, 3, 3, 3, 3, 3, 3, 3, 2, 2, 2, 3, 3, 3, 3, 3, 3, 3, 3, 3, 4, 3, 2, 2, 2, 2, 2,
    0, 0, 0, 0,
];

/// The symbol, number of bits and baseline of its first 22 states (Appendix A.1).
const FIRST_CELLS: [(u8, u32, u32); 22] = [
    (0, 4, 0),
    (0, 4, 16),
    (1, 5, 32),
    (3, 5, 0),
    (4, 5, 0),
    (6, 5, 0),
    (7, 5, 0),
    (9, 5, 0),
    (10, 5, 0),
    (12, 5, 0),
    (14, 6, 0),
    (16, 5, 0),
    (18, 5, 0),
    (19, 5, 0),
    (21, 5, 0),
    (22, 5, 0),
    (24, 5, 0),
    (25, 5, 32),
    (26, 5, 0),
    (27, 6, 0),
    (29, 6, 0),
    (31, 6, 0),
];

#[test]
fn default_table(rt: HostRuntime) {
    let cells = fse_table(rt.alloc(), 6, &LITERALS_LENGTHS).expect(&rt, "a table");
    assert!(rt; cells.len() == 64);
    for i in 0..22usize {
        assert!(rt;
            (cells[i].symbol, cells[i].bits, cells[i].baseline) == FIRST_CELLS[i],
            "{i}"
        );
    }
    for i in 60..64usize {
        assert!(rt;
            cells[i].symbol as usize == 95 - i && cells[i].bits == 6 && cells[i].baseline == 0,
            "{i}"
        );
    }
}

/// Expects as many symbols and bytes of a description of 256 points, whose probabilities are all points.
fn expect_description(rt: &(impl Abort + AllocGlobal), bytes: &[u8], symbols: usize) {
    let mut values = Vec::new(rt.alloc());
    assert!(rt; next_accuracy_log(9, bytes) == Ok(8));
    assert!(rt; append_values(&mut values, 8, 53, bytes).map(|rest| rest.len()) == Ok(1));
    assert!(rt; values.len() == symbols);
    let mut sum = 0;
    for value in &values {
        sum += if *value == 0 { 1 } else { *value as usize - 1 };
    }
    assert!(rt; sum == 256);
    let cells = fse_table(rt.alloc(), 8, &values).expect(rt, "a table");
    assert!(rt; cells.len() == 256);
    for end in 1..bytes.len() - 1 {
        let mut fewer = Vec::new(rt.alloc());
        assert!(rt;
            append_values(&mut fewer, 8, 53, &bytes[..end]).is_err(),
            "{end}"
        );
    }
}

#[test]
fn descriptions(rt: HostRuntime) {
    expect_description(&rt, &[0x23, 0x58, 0x66, 0x2B, 0xC9, 0xB4, 0x1B, 0x63], 18);
    expect_description(
        &rt,
        &[
            0x63, 0x30, 0x20, 0x38, 0x50, 0x38, 0x20, 0x94, 0x92, 0x49, 0xE5, 0xFA, 0x01, 0x23,
        ],
        14,
    );
    expect_description(
        &rt,
        &[
            0x23, 0xB0, 0x10, 0x42, 0xA3, 0x59, 0x54, 0x44, 0xEA, 0xBD, 0x69, 0x0C, 0x56,
        ],
        16,
    );
}

#[test]
fn backward_bits(rt: HostRuntime) {
    // The bits, from the end: the final bit flag, 10, 11000001, 1.
    let bytes = [0x83u8, 0x0D];
    assert!(rt; backward_end(&bytes) == Some(11));
    assert!(rt; previous_bits(&bytes, 2, 11) == Some((2, 9)));
    assert!(rt; previous_bits(&bytes, 8, 9) == Some((0xC1, 1)));
    assert!(rt; previous_bits(&bytes, 1, 1) == Some((1, 0)));
    assert!(rt; previous_bits(&bytes, 1, 0) == None);
    assert!(rt; previous_bits(&bytes, 0, 0) == Some((0, 0)));
    assert!(rt; backward_end(&[0x83, 0]) == None);
    assert!(rt; backward_end(&[]) == None);
}
