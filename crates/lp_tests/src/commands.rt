//! Runs of the command on a shelf in memory: the worked block, and pieces of its texts written otherwise.
use lp_text::{MemShelf, Word};
use lp_top::{run, status};
use std::alloc::Global;
use std::test::Fail;

const LIBRARY: &str = "library (l) {
  cell (AND2) {
    area : 2 ;
    pg_pin (VDD) { voltage_name : VDD ; pg_type : primary_power ; }
    pg_pin (VSS) { voltage_name : VSS ; pg_type : primary_ground ; }
    pin (A) { direction : input ; }
    pin (B) { direction : input ; }
    pin (Y) { direction : output ; function : \"A * B\" ; power_down_function : \"!VDD + VSS\" ; }
  }
}
";

const NETLIST: &str = "module t (a, b, y);
  input a, b;
  output y;
  AND2 g (.A(a), .B(b), .Y(y));
endmodule
";

const INTENT: &str = "create_supply_port VDD
create_supply_port VSS
create_supply_net VDD
create_supply_net VSS
connect_supply_net VDD -ports {VDD}
connect_supply_net VSS -ports {VSS}
create_supply_set S -function {power VDD} -function {ground VSS}
create_power_domain D -elements {.} -supply {primary S}
add_port_state VDD -state {ON 1.0}
";

const WORDS: &str = "insert --netlist n.v --upf u.upf --out o.v --report r.txt l.lib";

fn words(alloc: Global) -> Result<Vec<Word>, Fail> {
    let mut words = Vec::new(alloc);
    for text in WORDS.split(' ') {
        words.push(Word::new(String::from_str(alloc, text)?))?;
    }
    Ok(words)
}

/// The status of a run.
fn status_of(alloc: Global, words: &[Word], shelf: &mut MemShelf) -> u8 {
    let outcome = run(alloc, words, shelf);
    let status = status(&outcome);
    drop(outcome);
    status
}

/// The texts are the netlist, the power intent and the library.
fn fill(shelf: &mut MemShelf, texts: [&str; 3]) -> Result<(), Fail> {
    shelf.add_file("n.v", texts[0].as_bytes())?;
    shelf.add_file("u.upf", texts[1].as_bytes())?;
    shelf.add_file("l.lib", texts[2].as_bytes())?;
    Ok(())
}

/// What a run left: its status, what was said, and whether there is a netlist.
fn left(alloc: Global, shelf: &MemShelf, status: u8) -> Result<String, Fail> {
    let said = std::str::from_utf8(shelf.said_bytes())
        .ok()
        .ok_or("a text")?;
    let written = shelf.contents("o.v").is_some();
    Ok(format!(in alloc; "{status} {said}{written}")?)
}

fn ran_on(alloc: Global, shelf: &mut MemShelf, texts: [&str; 3]) -> Result<String, Fail> {
    fill(shelf, texts)?;
    let words = words(alloc)?;
    let status = status_of(alloc, &words, shelf);
    drop(words);
    left(alloc, shelf, status)
}

/// A run on a shelf in memory.
fn ran(alloc: Global, texts: [&str; 3]) -> Result<String, Fail> {
    let mut shelf = MemShelf::new(alloc, &[])?;
    let left = ran_on(alloc, &mut shelf, texts);
    drop(shelf);
    left
}

/// A piece of a text, and what stands there in its place.
type Change = (&'static str, &'static str);

/// No text has this piece.
const SAME: Change = ("\0", "");

const GATE: &str = "  AND2 g (.A(a), .B(b), .Y(y));\n";

const TWO_GATES: &str = "  AND2 g (.A(a), .B(b), .Y(y));\n  AND2 h (.A(a), .B(b), .Y(y));\n";

const RING: &str =
    "  wire m, n;\n  AND2 g (.A(a), .B(m), .Y(n));\n  AND2 h (.A(n), .B(b), .Y(m));\n";

const RING_OF_THREE: &str =
    "  wire m, n;\n  AND2 g (.A(a), .B(y), .Y(m));\n  AND2 h (.A(m), .B(m), .Y(n));\n  AND2 i (.A(n), .B(n), .Y(y));\n";

const CHAIN: &str =
    "  wire m, n;\n  AND2 g (.A(n), .B(n), .Y(y));\n  AND2 h (.A(m), .B(m), .Y(n));\n  AND2 i (.A(a), .B(a), .Y(m));\n";

const DOWN: &str = "power_down_function : \"!VDD + VSS\"";

/// Changes of the netlist, the power intent and the library, and the line behind `lpinsert: `, which is empty where
/// nothing is refused.
const CASES: &[(Change, Change, Change, &str)] = &[
    (SAME, SAME, SAME, ""),
    (("AND2", "OR9"), SAME, SAME, "F13 UnknownModule t g"),
    ((GATE, "  assign y = a;\n"), SAME, SAME, "F99 NotYet 4"),
    ((GATE, "  assign y = ;\n"), SAME, SAME, "F10 Syntax 4:14"),
    (
        (GATE, "  wire a, a;\n"),
        SAME,
        SAME,
        "F12 DuplicateName 4:11 a",
    ),
    (
        (".A(a)", ".A(1'bx)"),
        SAME,
        SAME,
        "F11 Unsupported 4:14 1'bx",
    ),
    ((", .B(b)", ""), SAME, SAME, "F99 NotYet 4"),
    ((GATE, TWO_GATES), SAME, SAME, "F16 TwoDrivers y"),
    ((".Y(y)", ".Y(a)"), SAME, SAME, "F16 TwoDrivers a"),
    ((GATE, CHAIN), SAME, SAME, ""),
    ((GATE, RING), SAME, SAME, "F99 NotYet 7"),
    ((GATE, RING_OF_THREE), SAME, SAME, "F99 NotYet 7"),
    ((".B(b)", ".B(y)"), SAME, SAME, "F99 NotYet 7"),
    (
        SAME,
        SAME,
        (DOWN, "power_down_function : \"!VDD\""),
        "F99 NotYet 7",
    ),
    (
        SAME,
        SAME,
        (DOWN, "power_down_function : \"VDD + !VSS\""),
        "F99 NotYet 7",
    ),
    (SAME, ("VSS", "VDD"), SAME, "F99 NotYet 5"),
    (SAME, ("VSS", "lp_x"), SAME, "F99 NotYet 5"),
    (SAME, ("VSS", "0V"), SAME, "F99 NotYet 5"),
    (
        SAME,
        ("port VSS\n", "port VSS\n# a comment\n"),
        SAME,
        "F99 NotYet 5",
    ),
    (SAME, ("port VSS", "port  VSS"), SAME, "F99 NotYet 5"),
    (SAME, ("port VSS\n", "port VSS \n"), SAME, "F99 NotYet 5"),
    (SAME, ("{VDD}", "{VDE}"), SAME, "F99 NotYet 5"),
    (SAME, ("1.0", "x"), SAME, "F99 NotYet 5"),
    (SAME, ("1.0}\n", "1.0}"), SAME, "F99 NotYet 5"),
    (SAME, ("1.0}\n", "1.0}\n\n"), SAME, "F99 NotYet 5"),
    (SAME, (INTENT, ""), SAME, "F99 NotYet 5"),
    (SAME, ("1.0", "0.81"), SAME, ""),
    (SAME, ("VDD", "p_1"), SAME, ""),
    (SAME, SAME, ("library", "}library"), "F01 Syntax 10 1:1"),
    (
        (GATE, "  assign y = ;\n"),
        ("1.0", "x"),
        ("library", "}library"),
        "F01 Syntax 10 1:1",
    ),
    (("AND2", "OR9"), ("1.0", "x"), SAME, "F13 UnknownModule t g"),
];

/// The gate and the end of its module.
const TAIL: &str = "  AND2 g (.A(a), .B(b), .Y(y));\nendmodule\n";

const LOWER: &str = "endmodule\nmodule u (p, q);\n  input [1:0] p;\n  output q;\nendmodule\n";

/// What stands for the gate, what stands for the end of the module, and the line: names, targets, connections, assigns
/// and cells of one module and of several.
const CONNECTIONS: &[(&str, &str, &str)] = &[
    ("  AND2 \\g+1 (.A(a), .B(b), .Y(y));\n", "endmodule\n", ""),
    ("  wire lp_n;\n", "endmodule\n", "F19 ReservedName lp_n"),
    (
        "  AND2 lp_g (.A(a), .B(b), .Y(y));\n",
        "endmodule\n",
        "F19 ReservedName lp_g",
    ),
    (
        "  u i (.p({a, b}), .q(y));\n",
        "endmodule\nmodule AND2 ();\nendmodule\n",
        "F19 ReservedName AND2",
    ),
    (
        "  v i (.p({a, b}), .q(y));\n",
        LOWER,
        "F13 UnknownModule t i",
    ),
    (
        "  u i (.p({a, b}), .q(y));\n  t j ();\n",
        LOWER,
        "F17 Recursive t",
    ),
    (
        "  u i ();\n",
        "endmodule\nmodule u ();\n  v j ();\nendmodule\nmodule v ();\n  u k ();\nendmodule\n",
        "F17 Recursive u",
    ),
    ("  AND2 g (.A(a), .B(b), .Y(y));\n", LOWER, "F18 Top 2"),
    ("  u i (.p({a, b}), .q(y));\n", LOWER, "F99 NotYet 4"),
    ("  u i ({a, b}, y);\n", LOWER, "F99 NotYet 4"),
    ("  u i (.p({a, b}), .q());\n", LOWER, "F99 NotYet 4"),
    ("  u i (.p(2'b10), .q(y));\n", LOWER, "F99 NotYet 4"),
    (
        "  wire [3:0] n;\n  u i (.p(n[2:1]), .q(y));\n",
        LOWER,
        "F99 NotYet 4",
    ),
    (
        "  wire [3:0] n;\n  u i (.p(n[2:0]), .q(y));\n",
        LOWER,
        "F15 Width t i p",
    ),
    ("  u i (.p(a), .q(y));\n", LOWER, "F15 Width t i p"),
    (
        "  wire [3:0] n;\n  assign n = {a, b, a, b};\n  u i (.p({a, b}), .q(n[1]));\n",
        LOWER,
        "F16 TwoDrivers n[1]",
    ),
    (
        "  u i (.p({a, b}), .q(y));\n  u j (.p({b, a}), .q());\n",
        "endmodule\nmodule u (p, q);\n  input [1:0] p;\n  output q;\n  assign q = p[0];\n  assign q = p[1];\nendmodule\n",
        "F16 TwoDrivers i/q",
    ),
    ("  u i (a, y);\n", LOWER, "F15 Width t i p"),
    (
        "  u i (.p({a, b}), .r(y));\n",
        LOWER,
        "F14 UnknownPin t i r",
    ),
    (
        "  u i (.p({a, b}), .q(y), .p({a, b}));\n",
        LOWER,
        "F14 UnknownPin t i p",
    ),
    ("  u i ({a, b}, y, a);\n", LOWER, "F14 UnknownPin t i 3"),
    (
        "  u i (.p({a, b}), .q(1'b1));\n",
        LOWER,
        "F14 UnknownPin t i q",
    ),
    (
        "  AND2 g (a, b, y);\n",
        "endmodule\n",
        "F14 UnknownPin t g 1",
    ),
    (
        "  AND2 g (.A(a), .B(b), .Y(1'b0));\n",
        "endmodule\n",
        "F14 UnknownPin t g Y",
    ),
    (
        "  AND2 g (.A(a), .B(b), .Y(y), .A(a));\n",
        "endmodule\n",
        "F14 UnknownPin t g A",
    ),
    (
        "  AND2 g (.A(a), .B(b), .Y(y), .VDD(a));\n",
        "endmodule\n",
        "F20 AlreadyPowered t g VDD",
    ),
    (
        "  AND2 g (.A({a, b}), .B(b), .Y(y), .VDD());\n",
        "endmodule\n",
        "F20 AlreadyPowered t g VDD",
    ),
    (
        "  AND2 g (.A({a, b}), .B(b), .Y(y));\n",
        "endmodule\n",
        "F15 Width t g A",
    ),
    (
        "  assign {y} = {a, b};\n",
        "endmodule\n",
        "F15 Width t assign 0",
    ),
    (
        "  BUF2 g (.A(a), .Y(y));\n",
        "endmodule\n",
        "F61 UnfitCell t g function",
    ),
    ("  assign y = a;\n", "endmodule\n", "F99 NotYet 4"),
];

/// A cell without a function stands beside the other.
const SECOND: &str = "library (l) {
  cell (BUF2) {
    pg_pin (VDD) { voltage_name : VDD ; pg_type : primary_power ; }
    pg_pin (VSS) { voltage_name : VSS ; pg_type : primary_ground ; }
    pin (A) { direction : input ; }
    pin (Y) { direction : output ; }
  }
";

/// A run on a netlist with another gate and another end.
fn ran_connected(alloc: Global, gate: &str, end: &str) -> Result<String, Fail> {
    let behind = format!(in alloc; "{gate}{end}")?;
    let netlist = NETLIST.replace(alloc, TAIL, &behind)?;
    let library = LIBRARY.replace(alloc, "library (l) {\n", SECOND)?;
    ran(alloc, [&netlist, INTENT, &library])
}

#[test]
fn refuses_connections(rt: HostRuntime) -> Result<(), Fail> {
    for (gate, end, line) in CONNECTIONS {
        let got = ran_connected(rt.alloc(), gate, end)?;
        let want = wanted(rt.alloc(), line)?;
        assert_eq!(rt; got.as_str(), want.as_str());
    }
    Ok(())
}

/// A chain of modules, each with so many instances of the next.
fn chain(alloc: Global, count: u32, each: u32) -> Result<String, Fail> {
    let mut text = String::new(alloc);
    for k in 0..count {
        write!(text, "module m{k} ();\n")?;
        for i in 0..each {
            if k + 1 < count {
                let next = k + 1;
                write!(text, "  m{next} i{i} ();\n")?;
            }
        }
        text.push_str("endmodule\n")?;
    }
    Ok(text)
}

/// How many modules, how many instances of the next each has, and the line.
const CHAINS: &[(u32, u32, &str)] = &[
    (64, 1, "F99 NotYet 4"),
    (65, 1, "F22 Limit 4"),
    (64, 2, "F22 Limit 3"),
];

#[test]
fn refuses_by_size(rt: HostRuntime) -> Result<(), Fail> {
    for (count, each, line) in CHAINS {
        let netlist = chain(rt.alloc(), *count, *each)?;
        let got = ran(rt.alloc(), [&netlist, INTENT, LIBRARY])?;
        let want = wanted(rt.alloc(), line)?;
        assert_eq!(rt; got.as_str(), want.as_str());
    }
    Ok(())
}

/// A run on changed texts.
fn ran_changed(alloc: Global, changes: [Change; 3]) -> Result<String, Fail> {
    let netlist = NETLIST.replace(alloc, changes[0].0, changes[0].1)?;
    let intent = INTENT.replace(alloc, changes[1].0, changes[1].1)?;
    let library = LIBRARY.replace(alloc, changes[2].0, changes[2].1)?;
    ran(alloc, [&netlist, &intent, &library])
}

/// What a run leaves that is refused by this line, or by none.
fn wanted(alloc: Global, line: &str) -> Result<String, Fail> {
    if line.is_empty() {
        return Ok(format!(in alloc; "0 true")?);
    }
    Ok(format!(in alloc; "1 lpinsert: {line}\nfalse")?)
}

#[test]
fn refuses_by_the_first_fault(rt: HostRuntime) -> Result<(), Fail> {
    for (netlist, intent, library, line) in CASES {
        let got = ran_changed(rt.alloc(), [*netlist, *intent, *library])?;
        let want = wanted(rt.alloc(), line)?;
        assert_eq!(rt; got.as_str(), want.as_str());
    }
    Ok(())
}
