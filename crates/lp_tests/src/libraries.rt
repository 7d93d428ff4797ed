//! Cells of Liberty texts in lines (Liberty cell, pg_pin, pin, ff and latch groups).
use crate::cells::put_cell;
use lp_cells::library;
use lp_liberty::read_groups;
use lp_model::{Groups, Library, Refusal, write_line};
use lp_text::Names;
use std::alloc::Global;
use std::fmt::Write;
use std::process::Abort;
use std::test::Fail;

/// Reads the groups of texts up to the first that is refused.
fn add_groups(
    rt: &impl Abort,
    alloc: Global,
    names: &mut Names,
    texts: &[&str],
    files: &mut Vec<Groups>,
) -> Result<(), Refusal> {
    for text in texts {
        assert!(rt; names.count() < 1_000_000);
        let groups = read_groups(alloc, names, 10, text.as_bytes())?;
        if files.push(groups).is_err() {
            return Err(Refusal::NoMemory);
        }
    }
    Ok(())
}

/// Reads texts as a library.
pub(crate) fn read(
    rt: &impl Abort,
    alloc: Global,
    names: &mut Names,
    texts: &[&str],
) -> Result<Library, Refusal> {
    let mut files = Vec::new(alloc);
    let read = add_groups(rt, alloc, names, texts, &mut files);
    let library = made(rt, alloc, names, read, files.as_slice());
    drop(files);
    library
}

/// The library of groups, where all were read.
fn made(
    rt: &impl Abort,
    alloc: Global,
    names: &mut Names,
    read: Result<(), Refusal>,
    files: &[Groups],
) -> Result<Library, Refusal> {
    read?;
    assert!(rt; names.count() < 1_000_000);
    library(alloc, names, files)
}

/// The cells in lines, or the line of the fault.
fn lines(
    rt: &impl Abort,
    alloc: Global,
    names: &Names,
    read: &Result<Library, Refusal>,
) -> Result<String, Fail> {
    let mut out = String::new(alloc);
    match read {
        Ok(library) => {
            for cell in library.cells.as_slice() {
                put_cell(&mut out, names, cell)?;
            }
        }
        Err(Refusal::Fault(fault)) => {
            assert!(rt; fault.is_plain());
            let line = write_line(alloc, names, fault)?;
            out.push_str(std::str::from_utf8(line.all()).ok().ok_or("a text")?)?;
        }
        Err(Refusal::NoMemory) => out.push_str("no memory")?,
    }
    Ok(out)
}

/// The cells of texts in lines, or the line of the fault.
fn cells_of(rt: &impl Abort, alloc: Global, texts: &[&str]) -> Result<String, Fail> {
    let mut names = Names::new(alloc)?;
    let read = read(rt, alloc, &mut names, texts);
    let out = lines(rt, alloc, &names, &read);
    drop(read);
    drop(names);
    out
}

/// Texts of two files, and their cells in lines.
const CELLS: &[([&str; 2], &str)] = &[
    (
        [
            "library (demo) { time_unit : \"1ns\";
                cell (AND2) {
                    area : 2.25;
                    pg_pin (VDD) { voltage_name : VDD; pg_type : primary_power; }
                    pg_pin (VSS) { voltage_name : VSS; pg_type : primary_ground; }
                    pg_pin (VNW) { pg_type : nwell; }
                    pg_pin (VPW) { pg_type : pwell; }
                    pin (A, B) { direction : input; related_bias_pin : \"VNW VPW\"; }
                    pin (Y) { direction : output; function : \"A*!B + (A^B)\"; }
                    pin (Z) { direction : output; function : \"1\"; power_down_function : \"!VDD\"; }
                }
            }",
            "",
        ],
        "AND2 2250000 usable
VDD primary_power
VSS primary_ground
VNW nwell
VPW pwell
A input 0 1 plain
B input 0 1 plain
Y output 0 1 plain function A B ! & A B ^ |; down VDD ! VSS |;
Z output 0 1 plain function 1; down VDD !;
",
    ),
    (
        [
            "library (demo) {
                cell (DFF) {
                    pg_pin (VDD) { pg_type : primary_power; }
                    pg_pin (VSS) { pg_type : primary_ground; }
                    ff (IQ, IQN) {
                        next_state : \"D\"; clocked_on : \"!CKN\"; clear : \"!RN\";
                        power_down_function : \"VSS\";
                    }
                    pin (D, CKN, RN) { direction : input; }
                    pin (Q) { direction : output; function : \"IQ\"; }
                }
                cell (LATCH) {
                    pg_pin (VSS) { pg_type : primary_ground; }
                    pg_pin (VDD) { pg_type : primary_power; }
                    latch (IQ, IQN) { data_in : \"D\"; enable : \"G & !E\"; preset : \"S\"; }
                    pin (D) { direction : input; }
                    pin (G E S) { direction : input; }
                    pin (QN) { direction : output; function : \"IQN\"; power_down_function : \"!VDD\"; }
                }
            }",
            "",
        ],
        "DFF 0 usable
VDD primary_power
VSS primary_ground
D input 0 1 plain
CKN input 0 1 plain
RN input 0 1 plain
Q output 0 1 plain function IQ; down VDD ! VSS |;
ff IQ IQN next D; clock CKN !; clear RN !; preset 0; down VSS;
LATCH 0 usable
VSS primary_ground
VDD primary_power
D input 1 0 plain
G input 1 0 plain
E input 1 0 plain
S input 1 0 plain
QN output 1 0 plain function IQN; down VDD !;
latch IQ IQN next D; clock G E ! &; clear 0; preset S; down VDD !;
",
    ),
    (
        [
            "library (l) { cell (ISO) {
                is_isolation_cell : true;
                pg_pin (VDD) { pg_type : primary_power; }
                pg_pin (VSS) { pg_type : primary_ground; }
                pin (A) { direction : input; isolation_cell_data_pin : true; }
                pin (EN) { direction : input; isolation_cell_enable_pin : true; }
            } }",
            "",
        ],
        "ISO 0 usable
VDD primary_power
VSS primary_ground
A input 0 1 isolation_data
EN input 0 1 isolation_enable
isolation
",
    ),
    (
        [
            "library (l) { cell (LS) {
                is_level_shifter : true;
                level_shifter_type : LH;
                input_voltage_range (0.70, 0.9);
                output_voltage_range (\"0.7\", \"1.1\");
                pg_pin (VSS) { pg_type : primary_ground; }
                pg_pin (VDDO) { pg_type : primary_power; }
                pg_pin (VDDI) { pg_type : primary_power; }
                pin (A) { direction : input; related_power_pin : VDDI; level_shifter_data_pin : true; }
                pin (EN) { direction : input; related_power_pin : VDDO; level_shifter_enable_pin : true; }
                pin (Y) { direction : output; related_power_pin : VDDO; function : \"A*EN\"; }
            } }",
            "",
        ],
        "LS 0 usable
VSS primary_ground
VDDO primary_power
VDDI primary_power
A input 2 0 shifter_data
EN input 1 0 shifter_enable
Y output 1 0 plain function A EN &; down VSS VDDO ! | VDDI ! |;
shifter LH 700000-900000 700000-1100000
",
    ),
    (
        [
            "library (l) { cell (HEAD) {
                switch_cell_type : coarse_grain;
                pg_pin (VDDG) { pg_type : primary_power; }
                pg_pin (VDD) { pg_type : internal_power; switch_function : \"OFF\"; pg_function : \"VDDG\"; }
                pin (OFF) { direction : input; switch_pin : true; }
            } }",
            "",
        ],
        "HEAD 0 usable
VDDG primary_power
VDD internal_power off OFF; passes 0
OFF input 0 - switch
switch
",
    ),
    (
        [
            "library (l) { cell (KEEP) {
                retention_cell : \"one\";
                pg_pin (VDD) { pg_type : primary_power; }
                pg_pin (VDDB) { pg_type : backup_power; }
                pg_pin (VSS) { pg_type : primary_ground; }
                ff (IQ, IQN) { next_state : \"D\"; clocked_on : \"CK\"; }
                retention_condition () { power_down_function : \"!VDDB + VSS\"; }
                pin (D, CK) { direction : input; }
                pin (SAVE) {
                    direction : input; related_power_pin : VDDB;
                    retention_pin (save_restore, \"1\"); save_action : L; restore_action : R;
                }
            } }",
            "",
        ],
        "KEEP 0 usable
VDD primary_power
VDDB backup_power
VSS primary_ground
D input 0 2 plain
CK input 0 2 plain
SAVE input 1 2 save_restore L R
ff IQ IQN next D; clock CK; clear 0; preset 0; down VDD ! VDDB ! | VSS |;
 retention VDDB ! VSS |;
",
    ),
    // tables, comments, quotes, any order, the last of two values, the ends of lines of other systems
    (
        [
            "/* head */ library(l) {\r\n  lu_table_template (t) { index_1 (\"0.1, 0.2\", \\\r\n \"0.3\") ; }\r\n\
                   cell (\"X\" /* quoted */) {\r\n area : 1 ; pin(Y){function:\"(A B)'\";timing(){related_pin:\"A B\";\
                   cell_rise(t){values(\"0.1, 0.2\", \\\n   \"0.3, 0.4\");}}direction:\"output\"}\r\n\
                   pin (/* two */ \"A\" B) { direction : output; direction /* the last */ : input }\r\n\
                   pg_pin(VSS){pg_type:\"primary_ground\"} pg_pin(\"VDD\"){pg_type:primary_power}\r\n\
                   area : \"3.5\" /* the last */ ; } ; }\r\n",
            "",
        ],
        "X 3500000 usable
VSS primary_ground
VDD primary_power
Y output 1 0 plain function A B & !; down VSS VDD ! |;
A input 1 0 plain
B input 1 0 plain
",
    ),
    // cells count in a library at the top alone
    (
        [
            "x () { library (l) { cell (A) {} } } cell (B) {} library (l) { y () { cell (C) {} } cell (D) {} }",
            "",
        ],
        "D 0 pg\n",
    ),
    (
        [
            "library (l) { cell (A) {} cell (B) {} }",
            "library (m) { cell (C) {} }",
        ],
        "A 0 pg\nB 0 pg\nC 0 pg\n",
    ),
    (
        [
            "library (l) { cell (A) {} cell (B) {} cell (B) {} cell (A) {} }",
            "",
        ],
        "lpinsert: F03 DuplicateCell B",
    ),
    (
        [
            "library (l) { cell (A) {} cell (B) {} }",
            "library (m) { cell (C) {} cell (\"A\") {} }",
        ],
        "lpinsert: F03 DuplicateCell A",
    ),
    (
        [
            "library (l) { cell (lp_x) {} cell (\"a b\") {} cell () {} }",
            "",
        ],
        "lp_x 0 name\na b 0 name\n 0 name\n",
    ),
];

#[test]
fn cells_have_lines(rt: HostRuntime) -> Result<(), Fail> {
    for (texts, want) in CELLS {
        let got = cells_of(&rt, rt.alloc(), texts)?;
        assert_eq!(rt; got.as_str(), *want);
    }
    Ok(())
}

/// Parts of a cell beside a power pin and a ground pin, and why it cannot be used.
const REASONS: &[(&str, &str)] = &[
    (
        "pin(A){direction:input;}pin(Y){direction:output;function:\"!A\";}",
        "usable",
    ),
    ("pin(\"A B\"){direction:input;}", "name"),
    ("pg_pin(){pg_type:nwell;}", "name"),
    ("pin(A,B,A){direction:input;}", "twice"),
    ("pin(VDD){direction:input;}", "twice"),
    ("pg_pin(V){}", "pg"),
    ("pg_pin(V){pg_type:primary;}pin(A){}", "pg"),
    (
        "pg_pin(V){pg_type:primary;}pg_pin(V){pg_type:nwell;}",
        "twice",
    ),
    ("pin(A){}", "direction"),
    ("pin(A){direction:inout;}", "direction"),
    ("pin(A){direction:input;related_power_pin:VSS;}", "related"),
    ("pin(A){direction:input;related_power_pin:V;}", "related"),
    ("pin(A){direction:input;related_ground_pin:VDD;}", "related"),
    (
        "pg_pin(W){pg_type:pwell;}pin(A){direction:input;related_ground_pin:W;}",
        "related",
    ),
    (
        "pg_pin(V){pg_type:primary_power;}pin(A){direction:input;}",
        "related",
    ),
    ("pin(Y){direction:output;}", "function"),
    (
        "pin(A){direction:input;}pin(Y){direction:output;function:\"A &\";}",
        "function",
    ),
    ("pin(Y){direction:output;function:\"Y\";}", "function"),
    (
        "pin(A){direction:input;power_down_function:\"A\";}",
        "function",
    ),
    (
        "pin(A){direction:input;}ff(Q,QN){next_state:A;}",
        "function",
    ),
    ("input_voltage_range(0.5);", "range"),
    ("output_voltage_range(0.5, high);", "range"),
    (
        "pin(A){direction:input;}ff(Q,QN){next_state:A;clocked_on:A;}latch(R,RN){data_in:A;enable:A;}",
        "groups",
    ),
    ("retention_cell:one;", "retention"),
    (
        "pin(A){direction:input;retention_pin(save,1);}",
        "retention",
    ),
    (
        "pin(A){direction:input;retention_pin(keep,1);save_action:H;}",
        "retention",
    ),
    (
        "pin(A){direction:input;retention_pin(restore,1);restore_action:F;}",
        "usable",
    ),
    (
        "pin(A){direction:input;}pin(Y){direction:output;function:A;three_state:A;}",
        "construct",
    ),
    ("pin(\"A:1\"){direction:input;}", "construct"),
    ("bus(A){}", "construct"),
    ("statetable(\"A B\", IQ){table:\"\";}", "construct"),
    ("ff_bank(Q,QN,2){}", "construct"),
    ("pin(A){direction:input;save_condition:A;}", "construct"),
];

/// A cell with a power pin, a ground pin and these parts, in lines: the first has its reason.
fn cell_with(rt: &impl Abort, alloc: Global, parts: &str) -> Result<String, Fail> {
    let text = format!(in alloc;
        "library (l) {{ cell (X) {{ pg_pin(VDD){{pg_type:primary_power;}} pg_pin(VSS){{pg_type:primary_ground;}} {parts} }} }}"
    )?;
    cells_of(rt, alloc, &[text.as_str()])
}

/// A cell with so many input pins, in lines.
fn cell_of_pins(rt: &impl Abort, alloc: Global, count: u32) -> Result<String, Fail> {
    let mut parts = String::from_str(alloc, "pin (")?;
    for number in 0..count {
        write!(parts, "p{number} ")?;
    }
    parts.push_str(") { direction : input; }")?;
    cell_with(rt, alloc, &parts)
}

#[test]
fn cells_have_reasons(rt: HostRuntime) -> Result<(), Fail> {
    for (parts, want) in REASONS {
        let got = cell_with(&rt, rt.alloc(), parts)?;
        let first = format!(in rt.alloc(); "X 0 {want}\n")?;
        assert!(rt; got.starts_with(first.as_str()), "of {parts}");
    }
    let most = cell_of_pins(&rt, rt.alloc(), 240)?;
    assert!(rt; most.starts_with("X 0 usable\n"), "of 240 pins");
    let more = cell_of_pins(&rt, rt.alloc(), 241)?;
    assert!(rt; more.starts_with("X 0 construct\n"), "of 241 pins");
    Ok(())
}
