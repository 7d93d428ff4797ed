//! Boolean expressions: how they are read, and the values that all replacements of X agree on.
use lp_attributes::text_of;
use lp_expr::{Expr, ExprFault, Step, read_control, read_liberty, value};
use lp_tern::Tern;
use lp_text::{NameId, Names};
use std::alloc::Global;
use std::fmt::Write;
use std::process::Abort;
use std::test::Fail;

/// Writes a step behind a blank; a variable by its name.
fn put_step(
    out: &mut String,
    names: &Names,
    variables: &[NameId],
    step: &Step,
) -> Result<(), Fail> {
    match step {
        Step::Variable(place) => match variables.get(usize::from(*place)) {
            None => write!(out, " ?")?,
            Some(name) => write!(out, " {}", text_of(names, *name))?,
        },
        Step::Constant(true) => write!(out, " 1")?,
        Step::Constant(false) => write!(out, " 0")?,
        Step::Not => write!(out, " !")?,
        Step::And => write!(out, " &")?,
        Step::Or => write!(out, " |")?,
        Step::Xor => write!(out, " ^")?,
    }
    Ok(())
}

/// Writes an expression in postfix order.
pub(crate) fn put_expr(out: &mut String, names: &Names, e: &Expr) -> Result<(), Fail> {
    for step in e.steps() {
        put_step(out, names, e.variables(), step)?;
    }
    Ok(())
}

fn answer(alloc: Global, names: &Names, read: &Result<Expr, ExprFault>) -> Result<String, Fail> {
    let mut out = String::new(alloc);
    match read {
        Ok(e) => put_expr(&mut out, names, e)?,
        Err(ExprFault::Syntax(at)) => write!(out, "off at {at}")?,
        Err(ExprFault::TooManyVariables) => write!(out, "too many")?,
        Err(ExprFault::NoMemory) => write!(out, "no memory")?,
    }
    Ok(out)
}

/// What reading answers, with a new table of names.
fn reading(rt: &impl Abort, alloc: Global, liberty: bool, text: &str) -> Result<String, Fail> {
    let mut names = Names::new(alloc)?;
    assert!(rt; names.count() == 0 && text.len() < 4096);
    let read = if liberty {
        read_liberty(alloc, &mut names, text)
    } else {
        read_control(alloc, &mut names, text)
    };
    let out = answer(alloc, &names, &read);
    drop(read);
    drop(names);
    out
}

const LIBERTY: &[(&str, &str)] = &[
    ("A B' + C^!D", " A B ! & C D ! ^ |"),
    ("(A * !B) + (C ^ (!D))", " A B ! & C D ! ^ |"),
    ("\"0\" & 10 | 1", " 0 10 & 1 |"),
    (
        "a+b+c+d+e+f+g+h+i+j+k+l+a",
        " a b | c | d | e | f | g | h | i | j | k | l | a |",
    ),
    ("a+b+c+d+e+f+g+h+i+j+k+l+m", "too many"),
    ("", "off at 0"),
    ("A +", "off at 3"),
    ("A(B)", "off at 1"),
    ("A'B", "off at 2"),
    ("\"\"", "off at 1"),
    ("(A", "off at 2"),
    ("A)", "off at 1"),
    ("A ~ B", "off at 2"),
];

const CONTROLS: &[(&str, &str)] = &[
    ("!c", " c !"),
    ("a || b && c | d & ~e", " a b c d e ! & | & |"),
    ("a b", "off at 2"),
    ("a'", "off at 1"),
    ("a &&& b", "off at 4"),
    ("a ^ b", "off at 2"),
    ("a & & b", "off at 4"),
];

#[test]
fn reads_expressions(rt: HostRuntime) -> Result<(), Fail> {
    for (text, want) in LIBERTY {
        let got = reading(&rt, rt.alloc(), true, text)?;
        assert_eq!(rt; got.as_str(), *want, "{text}");
    }
    for (text, want) in CONTROLS {
        let got = reading(&rt, rt.alloc(), false, text)?;
        assert_eq!(rt; got.as_str(), *want, "{text}");
    }
    Ok(())
}

pub(crate) fn value_of_byte(byte: u8) -> Tern {
    match byte {
        b'0' => Tern::Zero,
        b'1' => Tern::One,
        _ => Tern::X,
    }
}

pub(crate) fn byte_of_value(value: Tern) -> u8 {
    match value {
        Tern::Zero => b'0',
        Tern::One => b'1',
        Tern::X => b'X',
    }
}

/// The value of what was read, where its variables have these values in their order; `?` where it has no value.
fn value_at(alloc: Global, read: &Result<Expr, ExprFault>, values: &[u8]) -> Result<u8, Fail> {
    let mut levels = Vec::new(alloc);
    for byte in values {
        levels.push(value_of_byte(*byte))?;
    }
    match read {
        Ok(e) if e.variables().len() == levels.len() => Ok(byte_of_value(value(e, &levels))),
        _ => Ok(b'?'),
    }
}

/// The value of a text with a new table of names.
fn value_of(rt: &impl Abort, alloc: Global, text: &str, values: &[u8]) -> Result<u8, Fail> {
    let mut names = Names::new(alloc)?;
    assert!(rt; names.count() == 0 && text.len() < 4096);
    let read = read_liberty(alloc, &mut names, text);
    let out = value_at(alloc, &read, values);
    drop(read);
    drop(names);
    out
}

const VALUES: &[(&str, &[u8], u8)] = &[
    ("(A * !B) + (C ^ (!D))", b"1010", b'1'),
    ("(A * !B) + (C ^ (!D))", b"1110", b'0'),
    ("(A * !B) + (C ^ (!D))", b"0X00", b'1'),
    ("(A * !B) + (C ^ (!D))", b"0X01", b'0'),
    ("(A * !B) + (C ^ (!D))", b"1X01", b'X'),
    ("(A * !B) + (C ^ (!D))", b"10XX", b'1'),
    ("(A * !B) + (C ^ (!D))", b"X111", b'1'),
    ("(A * !B) + (C ^ (!D))", b"00X1", b'X'),
    ("A", b"X", b'X'),
    ("A + !A", b"X", b'1'),
    ("(a+b+c+d+e)*0 + f*g", b"XXXXX11", b'1'),
    ("(a+b+c+d+e)*0 + f*g", b"XXXXX0X", b'0'),
    ("(a+b+c+d+e)*0 + f*g", b"1111110", b'0'),
    ("(a+b+c+d+e)*0 + f*g", b"00000X1", b'X'),
];

#[test]
fn gives_what_all_replacements_agree_on(rt: HostRuntime) -> Result<(), Fail> {
    for (text, values, want) in VALUES {
        let got = value_of(&rt, rt.alloc(), text, values)?;
        assert_eq!(rt; got, *want, "{text}");
    }
    Ok(())
}
