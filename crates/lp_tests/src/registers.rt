//! Registers over time (Liberty ff and latch groups), and what control pins do.
use crate::expressions::{byte_of_value, value_of_byte};
use crate::libraries::read;
use lp_behaviour::{cell_output, fires, is_usable, state_next};
use lp_model::{Action, Cell, Library, Refusal};
use lp_tern::Tern;
use lp_text::Names;
use std::process::Abort;
use std::test::Fail;

const LIBRARY: &str = "library (l) {
  cell (FLOP) {
    pg_pin (VDD) { pg_type : primary_power; } pg_pin (VSS) { pg_type : primary_ground; }
    ff (IQ, IQN) { next_state : \"D\"; clocked_on : \"CK\"; clear : \"CL\"; preset : \"PR\"; }
    pin (D, CK, CL, PR) { direction : input; }
    pin (Q) { direction : output; function : \"IQ\"; }
    pin (QN) { direction : output; function : \"IQN\"; }
    pin (BOTH) { direction : output; function : \"IQ*IQN\"; }
  }
  cell (LATCH) {
    pg_pin (VDD) { pg_type : primary_power; } pg_pin (VSS) { pg_type : primary_ground; }
    latch (IQ, IQN) { data_in : \"D\"; enable : \"CK\"; clear : \"CL\"; preset : \"PR\"; }
    pin (D, CK, CL, PR) { direction : input; }
    pin (Q) { direction : output; function : \"IQ\"; }
    pin (QN) { direction : output; function : \"IQN\"; }
    pin (BOTH) { direction : output; function : \"IQ*IQN\"; }
  }
}";

/// Values of D, CK, CL and PR before and now, the state before and the next state.
type Row = (&'static [u8; 4], &'static [u8; 4], u8, u8);

/// The data of before counts, as the clock rises.
const FLOP: &[Row] = &[
    (b"1000", b"X100", b'X', b'1'),
    (b"0000", b"X100", b'1', b'0'),
    (b"1100", b"X100", b'0', b'0'),
    (b"1100", b"X000", b'X', b'X'),
    (b"1000", b"XX00", b'1', b'1'),
    (b"1000", b"XX00", b'0', b'X'),
    (b"XX00", b"X100", b'1', b'X'),
    (b"XXXX", b"1010", b'1', b'0'),
    (b"XXXX", b"1001", b'0', b'1'),
    (b"XXXX", b"1011", b'0', b'X'),
    (b"XXXX", b"10X0", b'0', b'0'),
    (b"XXXX", b"10X0", b'1', b'X'),
    (b"XXXX", b"100X", b'1', b'1'),
    (b"XXXX", b"101X", b'0', b'X'),
];

/// The data of now counts, while it is enabled.
const LATCH: &[Row] = &[
    (b"XXXX", b"1100", b'X', b'1'),
    (b"XXXX", b"0100", b'1', b'0'),
    (b"XXXX", b"1000", b'0', b'0'),
    (b"XXXX", b"1X00", b'1', b'1'),
    (b"XXXX", b"1X00", b'0', b'X'),
];

/// The values of the pins where the inputs have these.
fn seen(inputs: &[u8; 4]) -> [Tern; 7] {
    let [data, clock, clear, preset] = *inputs;
    [
        value_of_byte(data),
        value_of_byte(clock),
        value_of_byte(clear),
        value_of_byte(preset),
        Tern::X,
        Tern::X,
        Tern::X,
    ]
}

fn keeps_rows(rt: &impl Abort, cell: &Cell, rows: &[Row]) {
    assert!(rt; is_usable(cell));
    assert_eq!(rt; cell.pins.len(), 7);
    for (last, now, state, want) in rows {
        let next = state_next(cell, &seen(last), &seen(now), value_of_byte(*state));
        assert_eq!(rt; byte_of_value(next), *want);
    }
}

/// The outputs Q, QN and BOTH see one state.
fn shows_state(rt: &impl Abort, cell: &Cell) {
    assert_eq!(rt; cell.pins.len(), 7);
    let pins = [Tern::X; 7];
    for (state, pin, want) in [
        (b'0', 4, b'0'),
        (b'0', 5, b'1'),
        (b'0', 6, b'0'),
        (b'1', 4, b'1'),
        (b'1', 5, b'0'),
        (b'1', 6, b'0'),
        (b'X', 4, b'X'),
        (b'X', 5, b'X'),
        (b'X', 6, b'0'),
    ] {
        let value = cell_output(cell, pin, &pins, value_of_byte(state));
        assert_eq!(rt; byte_of_value(value), want, "pin {pin}");
    }
}

fn keeps_all(rt: &impl Abort, read: &Result<Library, Refusal>) {
    match read {
        Ok(library) => match library.cells.as_slice() {
            [flop, latch] => {
                keeps_rows(rt, flop, FLOP);
                keeps_rows(rt, latch, LATCH);
                shows_state(rt, flop);
            }
            _ => assert!(rt; false, "two cells"),
        },
        Err(_) => assert!(rt; false, "a library"),
    }
}

#[test]
fn registers_keep_their_rows(rt: HostRuntime) -> Result<(), Fail> {
    let mut names = Names::new(rt.alloc())?;
    let library = read(&rt, rt.alloc(), &mut names, &[LIBRARY]);
    keeps_all(&rt, &library);
    drop(library);
    drop(names);
    Ok(())
}

/// An action, the value of its control pin before, and what it does where the value is now 0, 1 or X.
const ACTIONS: &[(Action, u8, &[u8; 3])] = &[
    (Action::High, b'0', b"01X"),
    (Action::High, b'1', b"01X"),
    (Action::High, b'X', b"01X"),
    (Action::Low, b'0', b"10X"),
    (Action::Low, b'1', b"10X"),
    (Action::Low, b'X', b"10X"),
    (Action::Rise, b'0', b"01X"),
    (Action::Rise, b'1', b"000"),
    (Action::Rise, b'X', b"0XX"),
    (Action::Fall, b'0', b"000"),
    (Action::Fall, b'1', b"10X"),
    (Action::Fall, b'X', b"X0X"),
];

#[test]
fn controls_act(rt: HostRuntime) {
    for (action, last, row) in ACTIONS {
        for (want, now) in row.iter().zip(b"01X") {
            let fired = fires(*action, value_of_byte(*last), value_of_byte(*now));
            assert_eq!(rt; byte_of_value(fired), *want);
        }
    }
}
