// What is printed of the example file, and of a graph of two packages, of which the first needs the second.
use crate::print_answer;
use graph::EXAMPLE;

const EXAMPLE_RULES: &[u8] =
    b"graph: 3 packages, 3 dependencies, 4 features, 10 rule rows; 173 bytes read
row 0: from 3 with - to 1 lane 0 cross 1
row 1: from 0 with - to 4 lane 1 cross 0
row 2: from 4 with - to 2 lane 1 cross 1
row 3: from 6 with - to 7 lane 6 cross 0
row 4: from 7 with - to 3 lane 0 cross 0
row 5: from 7 with 3 to 8 lane 0 cross 1
row 6: from 9 with - to 8 lane 6 cross 0
row 7: from 2 with - to 5 lane 0 cross 0
row 8: from 5 with - to 1 lane 0 cross 1
row 9: from 5 with - to 9 lane 0 cross 1
unit 0 watches row 1: conclusion 4
";

const NEEDS: &[u8] = b"\x04\x00\x00\x00\x01\x00\x01\x00\
    \x05\x00\x00\x00\x02\x00\x00\x01a\
    \x0A\x00\x00\x00\x03\x00\x01\x00\x00\x00\x00\x01b\x00\
    \x05\x00\x00\x00\x02\x00\x00\x01b\
    \x02\x00\x00\x00\x05\x00";

const RULES: &[u8] = b"graph: 2 packages, 1 dependencies, 0 features, 2 rule rows; 46 bytes read
row 0: from 0 with - to 2 lane 0 cross 0
row 1: from 2 with - to 1 lane 0 cross 1
unit 0 watches row 0: conclusion 2
";

const TRAIL: &[u8] = b"graph: 2 packages, 1 dependencies, 0 features, 2 rule rows; 46 bytes read
trail 0: item 3, requested
trail 1: item 5, because of 0
trail 2: item 4, because of 1
settled after 2 steps: nothing pending
asked: item 4 is active, because of 1
";

const TOO_HIGH: &[u8] = b"graph: 2 packages, 1 dependencies, 0 features, 2 rule rows; 46 bytes read
refused 10 record 0 byte 0
";

#[test]
fn answers(rt: HostRuntime) -> anyhow::Result<()> {
    let table: [(&[u8], &[u32], &[u8]); 6] = [
        (&EXAMPLE, &[], EXAMPLE_RULES),
        (NEEDS, &[], RULES),
        (NEEDS, &[3], TRAIL),
        (NEEDS, &[3, 3], TRAIL),
        (NEEDS, &[0, 6], TOO_HIGH),
        (&[], &[0], b"refused 1 record 0 byte 0\n"),
    ];
    for (file, items, expected) in table {
        let mut out = Vec::new(rt.alloc());
        print_answer(&mut out, rt.alloc(), file, items)?;
        assert_eq!(rt; out.as_slice(), expected);
    }
    Ok(())
}
