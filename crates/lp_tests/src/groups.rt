//! Groups of Liberty texts in lines (Liberty syntax), and the places of their faults.
use lp_liberty::read_groups;
use lp_model::{Attr, DesignFault, Fault, Group, Groups, LibraryFault, Refusal};
use lp_text::{NameId, Names};
use std::alloc::Global;
use std::fmt::Write;
use std::test::Fail;

/// Writes names, with a bar before each.
fn put_names(out: &mut String, names: &Names, ids: &[NameId]) -> Result<(), Fail> {
    for id in ids {
        if id.0 < names.count() {
            write!(out, "|{}", names.text(*id))?;
        }
    }
    Ok(())
}

fn put_attr(out: &mut String, names: &Names, attr: &Attr) -> Result<(), Fail> {
    put_names(out, names, &[attr.word])?;
    let sign = if attr.complex { "()" } else { ":" };
    write!(out, "{sign}")?;
    put_names(out, names, attr.items.as_slice())?;
    write!(out, ";")?;
    Ok(())
}

/// A group in a line: its word and arguments, the number of the group around it, its attributes.
fn put_group(out: &mut String, names: &Names, group: &Group) -> Result<(), Fail> {
    put_names(out, names, &[group.word])?;
    put_names(out, names, group.args.as_slice())?;
    match group.parent {
        Some(parent) => write!(out, " in {parent} ")?,
        None => write!(out, " in the file ")?,
    }
    for attr in group.attrs.as_slice() {
        put_attr(out, names, attr)?;
    }
    write!(out, "\n")?;
    Ok(())
}

/// The groups in lines, or the fault and its place.
fn lines(alloc: Global, names: &Names, read: &Result<Groups, Refusal>) -> Result<String, Fail> {
    let mut out = String::new(alloc);
    match read {
        Ok(groups) => {
            for group in groups.groups.as_slice() {
                put_group(&mut out, names, group)?;
            }
        }
        Err(
            Refusal::Fault(Fault::Design(DesignFault::Library(LibraryFault::Limit { place, .. }))),
        ) => write!(out, "F02 {}:{}", place.line, place.column)?,
        Err(
            Refusal::Fault(Fault::Design(DesignFault::Library(LibraryFault::Syntax { place, .. }))),
        ) => write!(out, "F01 {}:{}", place.line, place.column)?,
        Err(_) => write!(out, "other")?,
    }
    Ok(out)
}

/// The groups of a text in lines, or where it is refused.
fn reading(alloc: Global, text: &[u8]) -> Result<String, Fail> {
    let mut names = Names::new(alloc)?;
    let read = read_groups(alloc, &mut names, 10, text);
    let out = lines(alloc, &names, &read);
    drop(read);
    drop(names);
    out
}

const GROUPS: &[(&[u8], &str)] = &[
    (b"", ""),
    (b" /* no { group \n */ ", ""),
    (b"library (l) { a : b; }", "|library|l in the file |a:|b;\n"),
    (
        b"library (l) {\r\n  a : 1.5\r\n  b (x, \"y z\" w) ;\r\n  c (d) e : \"f\" g }\r\n;\r\n",
        "|library|l in the file |a:|1.5;|b()|x|y z|w;|c()|d;|e:|f|g;\n",
    ),
    (
        b"library(l){cell(AND2){area:2;pin(A,B){direction:input;}pin(Y){}}cell(INV){}}",
        "|library|l in the file \n|cell|AND2 in 0 |area:|2;\n|pin|A|B in 1 |direction:|input;\n|pin|Y in 1 \n|cell|INV in 0 \n",
    ),
    (
        b"t () { values (\"0.1, 0.2\", \\\n   \"0.3, 0.4\"); x : \"a\\\nb\\\"c\\d\" }",
        "|t in the file |values()|0.1, 0.2|0.3, 0.4;|x:|ab\"c\\d;\n",
    ),
    (
        b"t(A[0:3],b/*c*/d \"e\"/**/f){a/* */:3/* x\n */4;wo\\\nrd : x/y}",
        "|t|A[0:3]|b|d|e|f in the file |a:|3|4;|word:|x/y;\n",
    ),
    (b"a(){x:;y:\n}b(){};c(){z():}", "F01 2:15"),
    (
        b"a(){x : max(A, 3) , (b)\n y(1);}",
        "|a in the file |x:|max|A|3|b;|y()|1;\n",
    ),
    (b"library (l) {", "F01 1:14"),
    (b"library (l) {\n} x", "F01 2:4"),
    (b"library (l) { /* open", "F01 1:22"),
    (b"library (l) { x (\"open", "F01 1:23"),
    (b"library \"open", "F01 1:9"),
    (b"a (b) ;", "F01 1:7"),
    (b"a : b", "F01 1:3"),
    (b"a(b){};;", "F01 1:8"),
    (b"a(\"b\"\"c\"){}", "F01 1:6"),
    (b"a(\"b\"c){}", "F01 1:6"),
    (b"a(b,,c){}", "F01 1:5"),
    (b"a(,b){}", "F01 1:3"),
    (b"a(b,){}", "F01 1:5"),
    (b"a(){x:y:z}", "F01 1:8"),
    (b"a(){x:y{}", "F01 1:8"),
    (b"a(){x:\\\n}\n}", "F01 3:1"),
    (b"a(){x y}", "F01 1:7"),
    (b"a(){\"x\":y}", "F01 1:5"),
    (b"a(){x:\x7f\xc3\xa9}", "F01 1:8"),
    (b"}", "F01 1:1"),
];

#[test]
fn texts_have_groups(rt: HostRuntime) -> Result<(), Fail> {
    for (text, want) in GROUPS {
        let got = reading(rt.alloc(), text)?;
        assert_eq!(rt; got.as_str(), *want);
    }
    Ok(())
}

/// What groups within groups give.
fn nested(alloc: Global, depth: usize) -> Result<String, Fail> {
    let opened = "g (x)\n{".repeat(alloc, depth)?;
    let closed = "}".repeat(alloc, depth)?;
    let text = format!(in alloc; "{opened}{closed}")?;
    reading(alloc, text.as_bytes())
}

/// What a group with a string of so many letters gives.
fn long(alloc: Global, letters: usize) -> Result<String, Fail> {
    let inside = "b".repeat(alloc, letters)?;
    let text = format!(in alloc; "a(){{x:\"{inside}\";y z}}")?;
    reading(alloc, text.as_bytes())
}

#[test]
fn depth_and_length_have_limits(rt: HostRuntime) -> Result<(), Fail> {
    for (depth, want) in [(64, "|g|x in 62 \n"), (65, "F02 65:2")] {
        let got = nested(rt.alloc(), depth)?;
        assert!(rt; got.ends_with(want), "{depth} groups");
    }
    for (letters, want) in [(1_048_574, "F01 1:1048586"), (1_048_575, "F02 1:7")] {
        let got = long(rt.alloc(), letters)?;
        assert!(rt; got.as_str() == want, "{letters} letters");
    }
    Ok(())
}
