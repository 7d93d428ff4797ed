//! Verilog texts, and what is written of them or the line of their fault (IEEE 1364-2005).
use lp_model::{Netlist, Refusal, write_line};
use lp_text::{Bytes, Names};
use lp_verilog::read_netlist;
use lp_vwrite::write_netlist;
use std::alloc::Global;
use std::process::Abort;
use std::test::Fail;

/// What is written of what was read, or the line of the fault.
fn answer(
    rt: &impl Abort,
    alloc: Global,
    names: &Names,
    read: &Result<Netlist, Refusal>,
) -> Result<Bytes, Fail> {
    match read {
        Ok(netlist) => Ok(write_netlist(alloc, names, netlist)?),
        Err(Refusal::NoMemory) => Ok(Bytes::copy(alloc, b"no memory")?),
        Err(Refusal::Fault(fault)) => {
            assert!(rt; fault.is_plain());
            Ok(write_line(alloc, names, fault)?)
        }
    }
}

fn rewritten(rt: &impl Abort, alloc: Global, text: &str) -> Result<Bytes, Fail> {
    let mut names = Names::new(alloc)?;
    let read = read_netlist(alloc, &mut names, text.as_bytes());
    let out = answer(rt, alloc, &names, &read);
    drop(read);
    drop(names);
    out
}

/// Texts that are refused, and the lines behind `lpinsert: `.
const REFUSED: &[(&str, &str)] = &[
    (
        "module t (y); output [1:0] y; BUF b (.A(1'bx), .Y(y[0])); endmodule",
        "F11 Unsupported 1:41 1'bx",
    ),
    (
        "module t (a); input a; wire a, a; endmodule",
        "F12 DuplicateName 1:32 a",
    ),
    ("module t; wire a;", "F10 Syntax 1:18"),
    (
        "module t (a); input [1:0] a; B b (a[2]); endmodule",
        "F10 Syntax 1:37",
    ),
    ("module t (a,\n b); input a; endmodule", "F10 Syntax 2:2"),
    ("module t; endmodule wire", "F10 Syntax 1:21"),
    ("module t; always", "F11 Unsupported 1:11 always"),
    ("module t; B b (.A(1'b2)); endmodule", "F10 Syntax 1:19"),
    (
        "module t; B b (.A(1'd2)); endmodule",
        "F11 Unsupported 1:19 1'd2",
    ),
    ("module t; B b (.A(4'sx)); endmodule", "F10 Syntax 1:19"),
    ("module t; /* wire", "F10 Syntax 1:18"),
    ("module t; (* keep", "F10 Syntax 1:18"),
    ("module t; wire \\a", "F10 Syntax 1:18"),
    (
        " `timescale 1ns/1ps\nmodule t; `define",
        "F11 Unsupported 2:11 `define",
    ),
    ("module t; assign a = b; endmodule", "F10 Syntax 1:22"),
];

#[test]
fn texts_are_refused_at_their_first_fault(rt: HostRuntime) -> Result<(), Fail> {
    for (text, want) in REFUSED {
        let got = rewritten(&rt, rt.alloc(), text)?;
        let line = format!(in rt.alloc(); "lpinsert: {want}")?;
        assert_eq!(rt; got.all(), line.as_bytes(), "{text}");
    }
    Ok(())
}

/// Texts, and how they are laid out.
const WRITTEN: &[(&str, &str)] = &[
    ("", ""),
    (
        "module t (a); input a; wire a; endmodule",
        "module t (a);\n  input a;\nendmodule\n",
    ),
    (
        "module t; endmodule module u(); endmodule",
        "module t ();\nendmodule\nmodule u ();\nendmodule\n",
    ),
    (
        "module t(input [3:0] a, b, output y); wire n; AND2 g(.A(a[0]),.B(n),.Y(y)), h(); assign n = b[2]; endmodule",
        "module t (a, b, y);\n  input [3:0] a;\n  input [3:0] b;\n  output y;\n  wire n;\n  AND2 g (.A(a[0]), .B(n), .Y(y));\n  AND2 h ();\n  assign n = b[2];\nendmodule\n",
    ),
    (
        "module t(a, z); input [0:2] a; output [0:0] z; B b(.A(a[0:2]),.C({a[0],a[1]}),.D(2'b10),.E(),.F(1'h1),.G({a[2],a[1],a[0]}),.Y(z)); endmodule",
        "module t (a, z);\n  input [0:2] a;\n  output [0:0] z;\n  B b (.A(a), .C({a[0], a[1]}), .D({1'b1, 1'b0}), .E(), .F(1'b1), .G({a[2], a[1], a[0]}), .Y(z));\nendmodule\n",
    ),
    (
        "module t(z); output [2:0] z; wire [1:0] w; assign {z[2],w} = z, z[0] = 1'b0; endmodule",
        "module t (z);\n  output [2:0] z;\n  wire [1:0] w;\n  assign {z[2], w[1], w[0]} = z;\n  assign z[0] = 1'b0;\nendmodule\n",
    ),
    (
        "module t (input [1:0] a, output wire y); wire [0:2] w; BUF b (.A({a, {w[1:2]}, 2'b10}), .Y()); assign w[0] = a[1]; endmodule",
        "module t (a, y);\n  input [1:0] a;\n  output y;\n  wire [0:2] w;\n  BUF b (.A({a[1], a[0], w[1], w[2], 1'b1, 1'b0}), .Y());\n  assign w[0] = a[1];\nendmodule\n",
    ),
    (
        "module \\m+ (\\module , \\plain ); input [1:0] \\module ; output \\plain ; BUF \\b+ (.\\A* (\\module [1]),.Y(plain)); endmodule",
        "module \\m+  (\\module , plain);\n  input [1:0] \\module ;\n  output plain;\n  BUF \\b+  (.\\A* (\\module [1]), .Y(plain));\nendmodule\n",
    ),
];

/// The layout of each text, which is its own layout.
#[test]
fn texts_are_laid_out(rt: HostRuntime) -> Result<(), Fail> {
    for (text, want) in WRITTEN {
        for source in [text, want] {
            let got = rewritten(&rt, rt.alloc(), source)?;
            assert_eq!(rt; got.all(), want.as_bytes(), "{source}");
        }
    }
    Ok(())
}
