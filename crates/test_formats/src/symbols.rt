//! Tables from worked rows: what addresses resolve to, and why rows are refused.
use crate::rows::assert_row;
use htl_symbols::{SymbolFault, Symbols};
use std::alloc::Global;
use std::process::Abort;

/// What reading the header and these rows answers.
fn read_rows(rt: &impl Abort, alloc: Global, rows: &[u8]) -> Result<Symbols, SymbolFault> {
    let mut bytes = Vec::from_slice(alloc, b"start,end,module,name\n").expect(rt, "the memory");
    bytes.extend_from_slice(rows).expect(rt, "the memory");
    Symbols::read(alloc, &bytes)
}

/// Why these rows are refused, if they are.
fn fault_of(rt: &impl Abort, alloc: Global, rows: &[u8]) -> Option<SymbolFault> {
    read_rows(rt, alloc, rows).err()
}

const RANGES: &[u8] =
    b"0x1000,0x1020,ntdll,NtCreateFile\n2000,2001,app,main\n2001,2002,\"a,b\",\n0,1,,\n";

/// Addresses, and what they resolve to in these ranges.
const RESOLVED: &[(u64, Option<(&str, &str, u64)>)] = &[
    (0x1000, Some(("ntdll", "NtCreateFile", 0))),
    (0x1010, Some(("ntdll", "NtCreateFile", 0x10))),
    (0x101f, Some(("ntdll", "NtCreateFile", 0x1f))),
    (0xfff, None),
    (0x1020, None),
    (0x2000, Some(("app", "main", 0))),
    (0x2001, Some(("a,b", "", 0))),
    (0x2002, None),
    (0, Some(("", "", 0))),
    (u64::MAX, None),
];

#[test]
fn addresses_of_ranges(rt: HostRuntime) {
    let symbols = read_rows(&rt, rt.alloc(), RANGES).expect(&rt, "a table");
    for (address, wanted) in RESOLVED {
        assert_row(&rt, *address, symbols.resolve(*address), *wanted);
    }
    assert_row(&rt, "no table", Symbols::none(rt.alloc()).resolve(0), None);
}

/// Rows after the header, and why they are refused.
const ROWS: &[(&[u8], Option<SymbolFault>)] = &[
    (b"", None),
    (b"1,2,a,b\n2,3,c,d", None),
    (b"0XA,20,a,b", Some(SymbolFault::Number(1))),
    (b"ffffffffFFFFFFFE,0xffffffffffffffff,a,b\r\n", None),
    (b"1,2,a", Some(SymbolFault::Fields(1))),
    (b"1,2,a,b,c", Some(SymbolFault::Fields(1))),
    (b"0xg,2,a,b", Some(SymbolFault::Number(1))),
    (b"0xg,2,a", Some(SymbolFault::Fields(1))),
    (b"0x,2,a,b", Some(SymbolFault::Number(1))),
    (b"1,+2,a,b", Some(SymbolFault::Number(1))),
    (b"00000000000000001,2,a,b", Some(SymbolFault::Number(1))),
    (b"2,2,a,b", Some(SymbolFault::EmptyRange(1))),
    (
        b"ffffffffffffffff,ffffffffffffffff,a,b",
        Some(SymbolFault::EmptyRange(1)),
    ),
    (b"1,2,\xff,b", Some(SymbolFault::Csv(1))),
    (b"1,2,\xff", Some(SymbolFault::Csv(1))),
    (b"\n\n1,2,a,b\n\n3,3,a,b", Some(SymbolFault::EmptyRange(2))),
    (
        b"1000,1020,a,b\n2000,2001,c,d\n101f,1030,x,y",
        Some(SymbolFault::Overlap(3)),
    ),
    (
        b"30,40,a,b\n10,20,c,d\n20,30,e,f\n0,100,g,h",
        Some(SymbolFault::Overlap(4)),
    ),
    (
        b"10,20,a,b\n18,19,c,d\nno number",
        Some(SymbolFault::Overlap(2)),
    ),
    (b"10,20,a,b\n30\n18,19,c,d", Some(SymbolFault::Fields(2))),
    (
        b"30,40,a,b\n10,20,c,d\n1f,30,e,f",
        Some(SymbolFault::Overlap(3)),
    ),
];

#[test]
fn faults_of_rows(rt: HostRuntime) {
    for (rows, wanted) in ROWS {
        assert_row(&rt, *rows, fault_of(&rt, rt.alloc(), rows), *wanted);
    }
}

/// Tables with these first records, and why they are refused.
const FIRST: &[(&[u8], Option<SymbolFault>)] = &[
    (b"", Some(SymbolFault::Header)),
    (b"START,end,module,name\n", Some(SymbolFault::Header)),
    (b"start,end,module\n", Some(SymbolFault::Header)),
    (b"start,end,module,\xff\n", Some(SymbolFault::Csv(0))),
    (b"\xef\xbb\xbfstart,end,module,name\n1,2,a,b\n", None),
    (b"\"start\",end,module,name", None),
];

#[test]
fn first_records(rt: HostRuntime) {
    for (bytes, wanted) in FIRST {
        assert_row(&rt, *bytes, Symbols::read(rt.alloc(), bytes).err(), *wanted);
    }
}

const CODES: &[(SymbolFault, &str)] = &[
    (SymbolFault::Header, "Y1"),
    (SymbolFault::Fields(1), "Y2(1)"),
    (SymbolFault::Number(2), "Y3(2)"),
    (SymbolFault::EmptyRange(3), "Y4(3)"),
    (SymbolFault::Overlap(4), "Y5(4)"),
    (SymbolFault::Csv(0), "Y6(0)"),
    (SymbolFault::NoMemory, "Y7"),
];

#[test]
fn codes_of_faults(rt: HostRuntime) {
    for (fault, code) in CODES {
        let text = format!(in rt.alloc(); "{fault}").expect(&rt, "the memory");
        assert_row(&rt, *fault, text.as_str(), *code);
    }
}
