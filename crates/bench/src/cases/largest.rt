// Tables of the largest size: 32 divisions, 256 cells, 65,536 bytes.
use crate::words::Call::*;
use crate::words::Setting::*;
use crate::words::Start::*;
use crate::words::*;

pub const CASES: &[Case] = &[
    // Divisions 32, cells 256, memory 65,536 bytes.
    Case(Largest, &[Current(31)], Do(LOAD, TOP, 0, 0)),
    // A byte's place in memory is offset + address - first.
    Case(Then, &[], Do(STORE, TOP, 255, 0)),
    // Load: value byte.
    Case(Then, &[], Do(LOAD, TOP, 0, 0)),
    // c is the cell covering x.
    Case(Then, &[], Do(LOAD, 4294967039, 0, 0)),
    // No cell covers the address.
    Case(Then, &[], Do(LOAD, 4294901759, 0, 0)),
    // Entry cell × M + division.
    Case(Then, &[], Do(TRANSFER, TOP, 0, 7)),
    // Value: lowest unsound cell.
    Case(Largest, &[Mark(255, 2)], Do(LOAD, TOP, 0, 0)),
    // Rights list of N × M bytes.
    Case(Largest, &[Shorter(List::Rights)], Do(LOAD, TOP, 0, 0)),
    // Cells N: 0 to 256.
    Case(Largest, &[N(257)], Do(LOAD, TOP, 0, 0)),
];
